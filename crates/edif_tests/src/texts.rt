// Texts that the tests read, and what is written of them.

/// A file of one cell, by keywords in small letters, in capitals and in both.
pub const SMALL: &[u8] =
    b"(edif a(edifversion 2 0 0)(EDIFLEVEL 0)(keywordMap(keywordLevel 0))(library w(edifLevel 0)(technology(numberDefinition))(cell c(cellType GENERIC)(view v(viewType NETLIST)(interface))))(design a(cellRef c(libraryRef w))))";

/// The same file by an alias of an alias.
pub const ALIASED: &[u8] =
    b"(edif a(edifVersion 2 0 0)(edifLevel 0)(keywordMap(keywordLevel 1)(keywordAlias kc cell)(keywordAlias kd KC))(library w(edifLevel 0)(technology(numberDefinition))(kd c(cellType GENERIC)(view v(viewType NETLIST)(interface))))(design a(cellRef c(libraryRef w))))";

/// The same file as it is written.
pub const SMALL_WRITTEN: &[u8] = b"(edif a
  (edifVersion 2 0 0)
  (edifLevel 0)
  (keywordMap (keywordLevel 0))
  (library w
    (edifLevel 0)
    (technology (numberDefinition))
    (cell c
      (cellType GENERIC)
      (view v
        (viewType NETLIST)
        (interface
        )
      )
    )
  )
  (design a (cellRef c (libraryRef w)))
)
";

/// A file of a comment and user data.
pub const TREES: &[u8] =
    b"(edif a(edifVersion 2 0 0)(edifLevel 0)(keywordMap(keywordLevel 0))(comment \"a\" \"b\")(userData u(x(y z))))";

/// A file whose parts have all their items.
pub const PARTS: &[u8] = b"(edif &a(edifVersion 2 0 0)(edifLevel 0)(keywordMap(keywordLevel 0))
(status(written(timeStamp 2024 03 01 09 05 00)(author \"a%37%b\")(Program \"p\"(version \"1\"))(DATAORIGIN \"o\"))(comment \"a\" \"b\"))
(userData u(x(1 \"s\")))(userData u (x (-7 \"a%34 37% %9 255%b\")))
(library(Rename w \"my library\")(edifLevel 0)(technology(numberDefinition))
(cell c(cellType GENERIC)(view v(viewType NETLIST)(interface
(port O (direction OUTPUT))(port(array q 4)(direction input))(port p(direction InOut)(comment))(port r)
(port s(property x(integer 1))(designator \"A1\")(direction INPUT)(userData u)))
(contents
(instance u (viewRef v (cellRef c (libraryRef l))) (designator \"U1\"))(instance w (viewRef v (cellRef c)))
(net n(joined(portRef(member q 2)(instanceRef u))(portRef clk))(property p(boolean(true)))(comment))(net m (joined))))
(property R(number(e 5 -1)))(property S(number -07))(property N(integer -07))(property B(boolean(false)))
(property D(boolean(TRUE))(owner \"user\")(comment \"c\"))(property INIT (string \"1'b0\")))))";

/// The same file as it is written.
pub const PARTS_WRITTEN: &[u8] = b"(edif &a
  (edifVersion 2 0 0)
  (edifLevel 0)
  (keywordMap (keywordLevel 0))
  (status
    (written
      (timeStamp 2024 3 1 9 5 0)
      (author \"a%37%b\")
      (program \"p\" (version \"1\"))
      (dataOrigin \"o\")
    )
    (comment \"a\" \"b\")
  )
  (userData u (x (1 \"s\")))
  (userData u (x (-7 \"a%34 37% %9 255%b\")))
  (library (rename w \"my library\")
    (edifLevel 0)
    (technology (numberDefinition))
    (cell c
      (cellType GENERIC)
      (view v
        (viewType NETLIST)
        (interface
          (port O (direction OUTPUT))
          (port (array q 4) (direction INPUT))
          (port p (direction INOUT) (comment))
          (port r)
          (port s (property x (integer 1)) (designator \"A1\") (direction INPUT) (userData u))
        )
        (contents
          (instance u
            (viewRef v (cellRef c (libraryRef l)))
            (designator \"U1\")
          )
          (instance w
            (viewRef v (cellRef c))
          )
          (net n
            (joined
              (portRef (member q 2) (instanceRef u))
              (portRef clk)
            )
            (property p (boolean (true)))
            (comment)
          )
          (net m
            (joined
            )
          )
        )
      )
      (property R (number (e 5 -1)))
      (property S (number -7))
      (property N (integer -7))
      (property B (boolean (false)))
      (property D (boolean (true)) (owner \"user\") (comment \"c\"))
      (property INIT (string \"1'b0\"))
    )
  )
)
";

/// A file up to the end of its header.
pub const HEAD: &[u8] = b"(edif a(edifVersion 2 0 0)(edifLevel 0)(keywordMap(keywordLevel 0))";

/// What stands between a header and an item of a cell.
pub const IN_CELL: &[u8] =
    b"(library w(edifLevel 0)(technology(numberDefinition))(cell c(cellType GENERIC)";

/// What stands between a header and an item of an interface.
pub const IN_INTERFACE: &[u8] =
    b"(library w(edifLevel 0)(technology(numberDefinition))(cell c(cellType GENERIC)(view v(viewType NETLIST)(interface";

/// What stands between a header and an item of contents.
pub const IN_CONTENTS: &[u8] =
    b"(library w(edifLevel 0)(technology(numberDefinition))(cell c(cellType GENERIC)(view v(viewType NETLIST)(interface)(contents";
