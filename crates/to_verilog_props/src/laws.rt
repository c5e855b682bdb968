// The laws of attributes and parameters.
ghost use Rattle.std.specs.Prelude.{◌≡◌, ◌++◌, [], Bool, List, bytes_eq, map};
ghost use Rattle.net_bits.specs.Names.{NameSet};
ghost use Rattle.net_hier.specs.Facts.{SameValues};
ghost use Rattle.net_hier.specs.declared.cells.HProp.{HProp};
ghost use Rattle.nl_base.specs.declared.value.PropValue.{PropValue};
ghost use Rattle.nl_base.specs.declared.value.PropValue.TheVariants.{Flag};
ghost use Rattle.net_live.specs.Last.{last_of};
ghost use Rattle.vlog_design.specs.Design.{attr_props, attr_value, param_props, param_value};
ghost use Rattle.vlog_design.specs.Names.{clashing};
ghost use Rattle.vlog_values.specs.declared.declaration.ParamSet.{ParamSet};
ghost use Rattle.to_verilog_props.specs.Constants.{attr_const, param_const};
ghost use Rattle.to_verilog_props.specs.Written.{HaveNoFlags, attrs_of, given_attrs, given_params};

/// The constant of a value means this value: in an attribute always, in a parameter where it is no boolean.
pub fn constants_mean_values()
    ensures attributes { (value : PropValue) → attr_value (attr_const value) ≡ value }
    ensures parameters { (value : PropValue) → ((one : Bool) → ¬ (value ≡ Flag one))
        → param_value (param_const value) ≡ value }
{}

/// The attributes of properties mean the last property of each name, and so give each name the same last value.
pub fn attributes_mean_properties()
    ensures last { (props : List HProp) → attr_props (attrs_of props) ≡ last_of props }
    ensures values { (props : List HProp) → SameValues props (attr_props (attrs_of props)) }
{}

/// The attributes and then the parameters of an instance give each name the same last value as its properties, where none of these is a
/// boolean that is to be a parameter. No parameter is given twice.
pub fn parameters_mean_properties()
    ensures values { (params : NameSet) (props : List HProp) → HaveNoFlags params props
        → SameValues props (attr_props (given_attrs params (last_of props))
        ++ param_props (given_params params (last_of props))) }
    ensures once { (params : NameSet) (props : List HProp)
        → clashing bytes_eq []
        (map (λ (set : ParamSet). set.name) (given_params params (last_of props))) ≡ [] }
{}
