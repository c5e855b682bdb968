ghost use Rattle.std.specs.Prelude.{◌≡◌};
ghost use Rattle.std.specs.List.{prefix_len};
ghost use Rattle.nl_bytes.specs.Classes.{in_class};

const SPACE: u8 = 1;

const DIGIT: u8 = 2;

const WORD_BYTE: u8 = 4;

const STRING_BYTE: u8 = 8;

const VERILOG_SPACE: u8 = 1;

const NAME_BYTE: u8 = 2;

const NUMBER_BYTE: u8 = 4;

const BASED_BYTE: u8 = 8;

const GRAPHIC: u8 = 16;

const VERILOG_STRING_BYTE: u8 = 32;

const LINE_BYTE: u8 = 64;

const COMMENT_BYTE: u8 = 128;

// For each byte the flags of the EDIF classes that it is in.
static EDIF_CLASSES: [u8; 256] = *b"\
    \x00\x00\x00\x00\x00\x00\x00\x00\x00\x09\x09\x00\x00\x09\x00\x00\
    \x00\x00\x00\x00\x00\x00\x00\x00\x00\x00\x00\x00\x00\x00\x00\x00\
    \x09\x08\x00\x08\x08\x00\x08\x08\x08\x08\x08\x08\x08\x08\x08\x08\
    \x0e\x0e\x0e\x0e\x0e\x0e\x0e\x0e\x0e\x0e\x08\x08\x08\x08\x08\x08\
    \x08\x0c\x0c\x0c\x0c\x0c\x0c\x0c\x0c\x0c\x0c\x0c\x0c\x0c\x0c\x0c\
    \x0c\x0c\x0c\x0c\x0c\x0c\x0c\x0c\x0c\x0c\x0c\x08\x08\x08\x08\x0c\
    \x08\x0c\x0c\x0c\x0c\x0c\x0c\x0c\x0c\x0c\x0c\x0c\x0c\x0c\x0c\x0c\
    \x0c\x0c\x0c\x0c\x0c\x0c\x0c\x0c\x0c\x0c\x0c\x08\x08\x08\x08\x00\
    \x08\x08\x08\x08\x08\x08\x08\x08\x08\x08\x08\x08\x08\x08\x08\x08\
    \x08\x08\x08\x08\x08\x08\x08\x08\x08\x08\x08\x08\x08\x08\x08\x08\
    \x08\x08\x08\x08\x08\x08\x08\x08\x08\x08\x08\x08\x08\x08\x08\x08\
    \x08\x08\x08\x08\x08\x08\x08\x08\x08\x08\x08\x08\x08\x08\x08\x08\
    \x08\x08\x08\x08\x08\x08\x08\x08\x08\x08\x08\x08\x08\x08\x08\x08\
    \x08\x08\x08\x08\x08\x08\x08\x08\x08\x08\x08\x08\x08\x08\x08\x08\
    \x08\x08\x08\x08\x08\x08\x08\x08\x08\x08\x08\x08\x08\x08\x08\x08\
    \x08\x08\x08\x08\x08\x08\x08\x08\x08\x08\x08\x08\x08\x08\x08\x08";

// For each byte the flags of the Verilog classes that it is in.
static VERILOG_CLASSES: [u8; 256] = *b"\
    \xc0\xc0\xc0\xc0\xc0\xc0\xc0\xc0\xc0\xe1\x81\xc0\xc1\xc1\xc0\xc0\
    \xc0\xc0\xc0\xc0\xc0\xc0\xc0\xc0\xc0\xc0\xc0\xc0\xc0\xc0\xc0\xc0\
    \xe1\xf0\xd0\xf0\xf2\xf0\xf0\xf0\xf0\xf0\x70\xf0\xf0\xf0\xf0\xf0\
    \xfe\xfe\xfe\xfe\xfe\xfe\xfe\xfe\xfe\xfe\xf0\xf0\xf0\xf0\xf0\xf8\
    \xf0\xfa\xfa\xfa\xfa\xfa\xfa\xfa\xfa\xfa\xfa\xfa\xfa\xfa\xfa\xfa\
    \xfa\xfa\xfa\xfa\xfa\xfa\xfa\xfa\xfa\xfa\xfa\xf0\xd0\xf0\xf0\xfe\
    \xf0\xfa\xfa\xfa\xfa\xfa\xfa\xfa\xfa\xfa\xfa\xfa\xfa\xfa\xfa\xfa\
    \xfa\xfa\xfa\xfa\xfa\xfa\xfa\xfa\xfa\xfa\xfa\xf0\xf0\xf0\xf0\xc0\
    \xe0\xe0\xe0\xe0\xe0\xe0\xe0\xe0\xe0\xe0\xe0\xe0\xe0\xe0\xe0\xe0\
    \xe0\xe0\xe0\xe0\xe0\xe0\xe0\xe0\xe0\xe0\xe0\xe0\xe0\xe0\xe0\xe0\
    \xe0\xe0\xe0\xe0\xe0\xe0\xe0\xe0\xe0\xe0\xe0\xe0\xe0\xe0\xe0\xe0\
    \xe0\xe0\xe0\xe0\xe0\xe0\xe0\xe0\xe0\xe0\xe0\xe0\xe0\xe0\xe0\xe0\
    \xe0\xe0\xe0\xe0\xe0\xe0\xe0\xe0\xe0\xe0\xe0\xe0\xe0\xe0\xe0\xe0\
    \xe0\xe0\xe0\xe0\xe0\xe0\xe0\xe0\xe0\xe0\xe0\xe0\xe0\xe0\xe0\xe0\
    \xe0\xe0\xe0\xe0\xe0\xe0\xe0\xe0\xe0\xe0\xe0\xe0\xe0\xe0\xe0\xe0\
    \xe0\xe0\xe0\xe0\xe0\xe0\xe0\xe0\xe0\xe0\xe0\xe0\xe0\xe0\xe0\xe0";

/// Classes of bytes, of which the tokens of both languages have runs.
#[derive(Clone, Copy)]
pub enum Class {
    /// White space of EDIF.
    Space,
    /// Decimal digits.
    Digit,
    /// What goes on in a word of EDIF: letters, digits and `_`.
    WordByte,
    /// What stands for itself in a string of EDIF.
    StringByte,
    /// White space of Verilog.
    VerilogSpace,
    /// What goes on in a name of Verilog: letters, digits, `_` and `$`.
    NameByte,
    /// What goes on in a number of Verilog: digits and `_`.
    NumberByte,
    /// What goes on in the digits of a based number: letters, digits, `_` and `?`.
    BasedByte,
    /// What goes on in an escaped name: bytes 33 to 126.
    Graphic,
    /// What stands for itself in a string of Verilog.
    VerilogStringByte,
    /// What goes on in a line: all but the line feed.
    LineByte,
    /// What cannot end a comment of Verilog: all but `*`.
    CommentByte,
}

impl Class {
    /// Whether a byte is in the class.
    #[inline]
    pub fn contains(self, byte: u8) -> bool
        ensures { result ≡ in_class self byte }
    {
        match self {
            Class::Space => EDIF_CLASSES[byte as usize] & SPACE != 0,
            Class::Digit => EDIF_CLASSES[byte as usize] & DIGIT != 0,
            Class::WordByte => EDIF_CLASSES[byte as usize] & WORD_BYTE != 0,
            Class::StringByte => EDIF_CLASSES[byte as usize] & STRING_BYTE != 0,
            Class::VerilogSpace => VERILOG_CLASSES[byte as usize] & VERILOG_SPACE != 0,
            Class::NameByte => VERILOG_CLASSES[byte as usize] & NAME_BYTE != 0,
            Class::NumberByte => VERILOG_CLASSES[byte as usize] & NUMBER_BYTE != 0,
            Class::BasedByte => VERILOG_CLASSES[byte as usize] & BASED_BYTE != 0,
            Class::Graphic => VERILOG_CLASSES[byte as usize] & GRAPHIC != 0,
            Class::VerilogStringByte => VERILOG_CLASSES[byte as usize] & VERILOG_STRING_BYTE != 0,
            Class::LineByte => VERILOG_CLASSES[byte as usize] & LINE_BYTE != 0,
            Class::CommentByte => VERILOG_CLASSES[byte as usize] & COMMENT_BYTE != 0,
        }
    }

    /// How many bytes at the front are in the class.
    #[inline]
    pub fn front(self, bytes: &[u8]) -> usize
        ensures { result ≡ prefix_len (in_class self) bytes.now }
    {
        let mut n = 0;
        while n < bytes.len() && self.contains(bytes[n]) {
            n += 1;
        }
        n
    }
}
