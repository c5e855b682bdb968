// Instances as parts of contents.
use edif_values::{ContentsItem, Instance};
use nl_base::NoMemory;
use std::alloc::Global;
use std::marker::Model;

/// Instances that are made as parts of contents, which contracts see as the list of the instances: no list of them is made beside that of
/// the parts.
#[derive(Drop)]
pub struct InstanceItems {
    items: Vec<ContentsItem>,
}

impl Model for InstanceItems {
    ghost use Rattle.std.specs.Coded.{codes};
    ghost use Rattle.std.specs.Prelude.{◌≡◌, List, map};
    ghost use Rattle.edif_values.specs.contracts.user.UserTree as trees;
    ghost use Rattle.edif_values.specs.declared.instance.Instance.{Instance};
    ghost use Rattle.edif_values.specs.declared.view.ContentsItem.TheVariants as contents_items;
    ghost use Rattle.edif_parts.specs.Instances.{instances_in};

    ghost Value = { List Instance };

    ghost coded = { Prim.hlevel (codes, trees.the_row.coded) };

    ghost view = { λ i. instances_in i.items.items };

    ghost invariant = { λ i. i.items.items
        ≡ map contents_items.Instance (instances_in i.items.items) };
}

ghost use Rattle.std.specs.Prelude.{◌≡◌, [], ◌++◌, ◌∷◌, length, map, IfOk, OnOk};
ghost use Rattle.edif_values.specs.declared.view.ContentsItem.TheVariants as contents_items;

impl InstanceItems {
    /// No instances, with room for so many parts.
    pub fn with_room(alloc: Global, count: usize) -> Result<InstanceItems, NoMemory>
        ensures { IfOk result (λ made. made ≡ []) }
    {
        Ok(InstanceItems {
            items: Vec::with_capacity(alloc, count)?,
        })
    }

    /// How many instances there are.
    pub fn len(&self) -> usize
        ensures { result ≡ length self.now }
    {
        self.items.len()
    }

    /// Adds an instance at the end.
    pub fn push(&mut self, instance: Instance) -> Result<(), NoMemory>
        ensures { OnOk result (self.new ≡ self.old ++ instance ∷ []) }
    {
        self.items.push(ContentsItem::Instance(instance))?;
        Ok(())
    }

    /// The parts of contents that these instances are.
    pub fn into_items(self) -> Vec<ContentsItem>
        ensures { result.items ≡ map contents_items.Instance self }
    {
        self.items
    }
}
