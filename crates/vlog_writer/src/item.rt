ghost use Rattle.vlog_writer.specs.Forms.{item_form, item_lines};
ghost use Rattle.vlog_writer.specs.Layout.{all, inline, laid};
ghost use Rattle.nl_output.specs.Writing.{state, Puts};

use crate::declaration::write_param;
use crate::forms::OnLine;
use nl_io::Sink;
use nl_output::Output;
use vlog_values::ItemV;

impl OnLine for ItemV {
    ghost form = { item_form };

    fn write<O: Sink>(&self, output: &mut Output, sink: &mut O) {
        match self {
            ItemV::Port(ports) => ports.write(output, sink),
            ItemV::Net(nets) => nets.write(output, sink),
            ItemV::Param(params) => write_param(params, output, sink),
            ItemV::Assign(assigns) => assigns.write(output, sink),
            ItemV::Instances(instances) => instances.write(output, sink),
            ItemV::Defparam(defparams) => defparams.write(output, sink),
        }
    }
}

/// An item on a line of its own, in a module.
pub fn lay_item<O: Sink>(item: &ItemV, output: &mut Output, sink: &mut O)
    ensures { Puts (laid (item_lines item.now))
        (state O.receipt sink.old output.old) (state O.receipt sink.new output.new) }
{
    output.put(b"  ", sink);
    item.write(output, sink);
    output.put(b";\n", sink);
}

/// Items, each on a line.
pub(crate) fn lay_items<O: Sink>(items: &[ItemV], output: &mut Output, sink: &mut O)
    ensures { Puts (laid (all item_lines items.now))
        (state O.receipt sink.old output.old) (state O.receipt sink.new output.new) }
{
    for item in items {
        lay_item(item, output, sink);
    }
}
