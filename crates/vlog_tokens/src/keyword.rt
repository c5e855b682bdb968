ghost use Rattle.std.specs.Prelude.{◌≡◌, ◌-◌, ◌<◌, ◌≤◌, true};
ghost use Rattle.std.specs.List.{list_any};
ghost use Rattle.nl_base.specs.Case.{same_bytes};
ghost use Rattle.vlog_tokens.specs.Keywords.{is_keyword, is_small, is_like_keyword, bound, part, shape_at, shape_of, start_at, word, words_from};

/// The keywords in the order of the alphabet, one directly after another.
static TEXT: [u8; 776] = *b"\
    alwaysandassignautomaticbeginbufbufif0bufif1casecasexcasezcellcmosconfigdeassign\
    defaultdefparamdesigndisableedgeelseendendcaseendconfigendfunctionendgenerateendmodule\
    endprimitiveendspecifyendtableendtaskeventforforceforeverforkfunctiongenerategenvar\
    highz0highz1ififnoneincdirincludeinitialinoutinputinstanceintegerjoinlargeliblist\
    librarylocalparammacromodulemediummodulenandnegedgenmosnornoshowcancellednotnotif0\
    notif1oroutputparameterpmosposedgeprimitivepull0pull1pulldownpulluppulsestyle_ondetect\
    pulsestyle_oneventrcmosrealrealtimeregreleaserepeatrnmosrpmosrtranrtranif0rtranif1\
    scalaredshowcancelledsignedsmallspecifyspecparamstrong0strong1supply0supply1tabletask\
    timetrantranif0tranif1tritri0tri1triandtriortriregunsigneduseuwirevectoredwaitwand\
    weak0weak1whilewireworxnorxor";

/// Where each keyword begins in `TEXT`; it ends where the next begins.
static BOUNDS: [u16; 125] = [
    0, 6, 9, 15, 24, 29, 32, 38, 44, 48, 53, 58, 62, 66, 72, 80, 87, 95, 101, 108, 112, 116, 119,
    126, 135, 146, 157, 166, 178, 188, 196, 203, 208, 211, 216, 223, 227, 235, 243, 249, 255, 261,
    263, 269, 275, 282, 289, 294, 299, 307, 314, 318, 323, 330, 337, 347, 358, 364, 370, 374, 381,
    385, 388, 403, 406, 412, 418, 420, 426, 435, 439, 446, 455, 460, 465, 473, 479, 498, 516, 521,
    525, 533, 536, 543, 549, 554, 559, 564, 572, 580, 588, 601, 607, 612, 619, 628, 635, 642, 649,
    656, 661, 665, 669, 673, 680, 687, 690, 694, 698, 704, 709, 715, 723, 726, 731, 739, 743, 747,
    752, 757, 762, 766, 769, 773, 776,
];

/// The number of the first keyword of each small letter; those of the next letter begin where they end.
static STARTS: [u8; 27] = [
    0, 4, 8, 14, 19, 32, 37, 39, 41, 50, 51, 51, 55, 58, 66, 68, 78, 78, 89, 99, 111, 114, 115,
    122, 124, 124, 124,
];

/// The length and the second byte of each keyword, as `shape_of` puts them into one number.
static SHAPES: [u16; 124] = [
    1644, 878, 1651, 2421, 1381, 885, 1653, 1653, 1121, 1377, 1377, 1125, 1133, 1647, 2149, 1893,
    2149, 1637, 1897, 1124, 1132, 878, 1902, 2414, 2926, 2926, 2414, 3182, 2670, 2158, 1902, 1398,
    879, 1391, 1903, 1135, 2165, 2149, 1637, 1641, 1641, 614, 1638, 1646, 1902, 1902, 1390, 1390,
    2158, 1902, 1135, 1377, 1897, 1897, 2671, 2913, 1637, 1647, 1121, 1893, 1133, 879, 3951, 879,
    1647, 1647, 626, 1653, 2401, 1133, 1903, 2418, 1397, 1397, 2165, 1653, 4981, 4725, 1379, 1125,
    2149, 869, 1893, 1637, 1390, 1392, 1396, 2164, 2164, 2147, 3432, 1641, 1389, 1904, 2416, 1908,
    1908, 1909, 1909, 1377, 1121, 1129, 1138, 1906, 1906, 882, 1138, 1138, 1650, 1394, 1650, 2158,
    883, 1399, 2149, 1121, 1121, 1381, 1381, 1384, 1129, 879, 1134, 879,
];

/// Where a keyword begins in the text.
#[tactic(auto, unfolding(crate::specs::Keywords::bound))]
fn bound(number: usize) -> usize
    requires { number ≤ 124 }
    ensures { result ≡ bound number }
{
    usize::from(BOUNDS[number])
}

/// The number of the first keyword of a letter, the letters counted from 0.
#[tactic(auto, unfolding(crate::specs::Keywords::start_at))]
fn start_at(letter: usize) -> usize
    requires { letter ≤ 26 }
    ensures { result ≡ start_at letter }
{
    usize::from(STARTS[letter])
}

/// A part of the text.
#[tactic(auto, unfolding(crate::specs::Keywords::part))]
fn part(start: usize, end: usize) -> &'static [u8]
    requires order { start ≤ end }
    requires within { end ≤ 776 }
    ensures { result.now ≡ part start end }
{
    &TEXT[start..end]
}

/// The keyword of a number.
#[tactic(auto, using(crate::proofs::Keywords::bounds))]
fn word(number: usize) -> &'static [u8]
    requires { number < 124 }
    ensures { result.now ≡ word number }
{
    part(bound(number), bound(number + 1))
}

/// The length and the second byte of the keyword of a number, in one number.
#[inline(always)]
#[tactic(auto, unfolding(crate::specs::Keywords::shape_at))]
fn shape_at(number: usize) -> u16
    requires { number < 124 }
    ensures { result ≡ shape_at number }
{
    SHAPES[number]
}

/// Whether a name of this shape is the keyword of a number. Most have another shape, which is compared first.
#[inline(always)]
#[tactic(auto, using(crate::proofs::Keywords::other_shape))]
fn is_word(name: &[u8], shape: u16, number: usize) -> bool
    requires within { number < 124 }
    requires shape { shape ≡ shape_of name.now }
    ensures { result ≡ same_bytes name.now (word number) }
{
    if shape_at(number) != shape {
        return false;
    }
    name == word(number)
}

/// Whether a name of this shape is one of the keywords from a number to another.
fn is_among(name: &[u8], shape: u16, start: usize, end: usize) -> bool
    requires within { end ≤ 124 }
    requires shape { shape ≡ shape_of name.now }
    ensures { result ≡ list_any (same_bytes name.now) (words_from (end - start) start) }
{
    for number in start..end {
        if is_word(name, shape, number) {
            return true;
        }
    }
    false
}

#[inline(always)]
fn is_small(b: u8) -> bool
    ensures { result ≡ is_small b }
{
    b'a' <= b && b <= b'z'
}

/// Whether a name begins with two small letters and is no longer than the longest keyword, as each keyword. Most names of a
/// netlist are not so.
#[inline(always)]
#[tactic(auto, unfolding(crate::specs::Keywords::is_like_keyword))]
fn is_like_keyword(name: &[u8]) -> bool
    ensures { result ≡ is_like_keyword name.now }
{
    if name.len() < 2 || name.len() > 19 {
        return false;
    }
    if is_small(name[0]) {
        return is_small(name[1]);
    }
    false
}

/// The length and the second byte of a name that is like a keyword, in one number.
#[inline(always)]
#[tactic(auto, unfolding(crate::specs::Keywords::is_like_keyword))]
fn shape_of(name: &[u8]) -> u16
    requires { is_like_keyword name.now ≡ true }
    ensures { result ≡ shape_of name.now }
{
    name.len() as u16 * 256 + u16::from(name[1])
}

/// Whether a name that is like a keyword is one.
#[inline(never)]
fn is_of_letter(name: &[u8]) -> bool
    requires { is_like_keyword name.now ≡ true }
    ensures { result ≡ is_keyword name.now }
{
    let letter = usize::from(name[0] - b'a');
    is_among(name, shape_of(name), start_at(letter), start_at(letter + 1))
}

/// Whether a name is a keyword.
#[inline(always)]
#[tactic(auto, using(crate::proofs::Keywords::not_like))]
pub fn is_keyword(name: &[u8]) -> bool
    ensures { result ≡ is_keyword name.now }
{
    if is_like_keyword(name) {
        return is_of_letter(name);
    }
    false
}
