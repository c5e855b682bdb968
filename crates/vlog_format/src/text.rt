// The text of a file in memory.
ghost use Rattle.std.specs.Prelude.{◌≡◌, ◌++◌, ◌∷◌, [], List, IfOk};
ghost use Rattle.vlog_values.specs.declared.module.ItemV.{ItemV as ItemValue};
ghost use Rattle.vlog_values.specs.declared.module.Module.{Module};
ghost use Rattle.vlog_modules.specs.Beginnings.{with_items};
ghost use Rattle.vlog_writer.specs.Forms.{vlog_text};
ghost use Rattle.vlog_format.specs.Texts.{IsTextOf, IsTextUpTo};

use nl_base::NoMemory;
use nl_memory::MemorySink;
use nl_output::Output;
use std::alloc::Global;
use vlog_values::{ItemV, Module};
use vlog_writer::{lay_item, lay_module_end, lay_module_start};

/// The normal text of a file, made item by item: neither the modules nor their items need be kept.
#[derive(Drop)]
pub struct FileText {
    sink: MemorySink,
    output: Output,
    // Whether names may stand without a declaration in the last module so far.
    implicit: bool,
}

impl FileText {
    /// The text of no modules.
    pub fn new(alloc: Global) -> FileText
        ensures { IsTextOf result [] }
    {
        FileText {
            sink: MemorySink::new(alloc),
            output: Output::new(),
            implicit: true,
        }
    }

    /// Notes what a module says of names without a declaration, for the module behind it.
    fn note_implicit(&mut self, module: &Module)
        ensures { self.new ≡ record self.old { implicit = «module».now.implicit } }
    {
        self.implicit = module.implicit;
    }

    /// Begins the text of a module that has these items behind its heading. Where memory runs out nothing more is added, and `finish` says it.
    pub fn begin(&mut self, heading: &Module)
        ensures { (ms : List Module) → IsTextOf self.old ms
            → IsTextUpTo self.new ms heading.now [] }
    {
        lay_module_start(self.implicit, heading, &mut self.output, &mut self.sink);
        self.note_implicit(heading);
    }

    /// Adds the text of an item to that of a module.
    pub fn add(&mut self, item: &ItemV)
        ensures { (ms : List Module) (heading : Module) (items : List ItemValue)
            → IsTextUpTo self.old ms heading items
            → IsTextUpTo self.new ms heading (items ++ item.now ∷ []) }
    {
        lay_item(item, &mut self.output, &mut self.sink);
    }

    /// Ends the text of a module.
    pub fn end(&mut self)
        ensures { (ms : List Module) (heading : Module) (items : List ItemValue)
            → IsTextUpTo self.old ms heading items
            → IsTextOf self.new (ms ++ with_items heading items ∷ []) }
    {
        lay_module_end(&mut self.output, &mut self.sink);
    }

    /// The whole text.
    ///
    /// # Errors
    /// `NoMemory`: memory ran out, here or before.
    pub fn finish(self) -> Result<Vec<u8>, NoMemory>
        ensures { (ms : List Module) → IsTextOf self ms
            → IfOk result (λ text. text.items ≡ vlog_text (record { modules = ms })) }
    {
        let FileText {
            mut sink,
            output,
            ..
        } = self;
        match output.finish(&mut sink) {
            Ok(()) => Ok(sink.into_bytes()),
            Err(_) => Err(NoMemory),
        }
    }
}
