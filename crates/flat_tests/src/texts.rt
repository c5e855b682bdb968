// Parts of EDIF files of a few cells, of which `top` is the top of the design.

/// The front of a file, up to its cells.
pub const CELLS: &[u8] =
    b"(edif t(edifVersion 2 0 0)(edifLevel 0)(keywordMap(keywordLevel 0))(library w(edifLevel 0)(technology(numberDefinition))";

/// The front of the top cell, up to its ports.
pub const PORTS: &[u8] = b"(cell top(cellType GENERIC)(view v(viewType NETLIST)(interface";

/// Behind the ports of the top cell, up to its instances and nets.
pub const PARTS: &[u8] = b")(contents";

/// The end of the file, behind the instances and nets of the top cell.
pub const END: &[u8] = b"))))(design t(cellRef top(libraryRef w))))";

/// An inverter.
pub const INV: &[u8] =
    b"(cell INV(cellType GENERIC)(view v(viewType NETLIST)(interface(port I(direction INPUT))(port O(direction OUTPUT)))))";

/// A cell that joins its input to its output.
pub const FEED: &[u8] =
    b"(cell feed(cellType GENERIC)(view v(viewType NETLIST)(interface(port a(direction INPUT))(port y(direction OUTPUT)))(contents(net n(joined(portRef a)(portRef y))))))";

/// A cell with an inverter behind ports of its own.
pub const BOX: &[u8] =
    b"(cell box(cellType GENERIC)(view v(viewType NETLIST)(interface(port I(direction INPUT))(port O(direction OUTPUT)))(contents(instance i(viewRef v(cellRef INV)))(net I(joined(portRef I)(portRef I(instanceRef i))))(net O(joined(portRef O)(portRef O(instanceRef i)))))))";

/// An input and an output.
pub const ENDS: &[u8] = b"(port a(direction INPUT))(port y(direction OUTPUT))";

/// Two inputs.
pub const INPUTS: &[u8] = b"(port a(direction INPUT))(port b(direction INPUT))";

/// An instance of the cell that joins its ports, and one of the cell around the inverter, one behind the other.
pub const LEVELS: &[u8] =
    b"(instance f(viewRef v(cellRef feed)))(instance b(viewRef v(cellRef box)))(net n1(joined(portRef a)(portRef a(instanceRef f))))(net n2(joined(portRef y(instanceRef f))(portRef I(instanceRef b))))(net n3(joined(portRef O(instanceRef b))(portRef y)))";
