ghost use Rattle.std.specs.Prelude.{◌≡◌, ◌<◌, ◌≤◌};
ghost use Rattle.std.specs.List.{find};
ghost use Rattle.edif_values.specs.Keywords.{keyword_of, allowed_keyword, is_spelled};
ghost use Rattle.edif_keywords.specs.Calls.{shows_keyword};
ghost use Rattle.edif_keywords.specs.Slots.{candidates, of_slot, part, start_at};

use edif_tokens::shows_word;
use edif_values::{Keyword, spelling};
use nl_base::fold_eq;

/// How many slots there are. A word's slot is a number made of its length and its first letter.
const SLOTS: usize = 64;

/// Where the keywords of each slot begin in `BY_SLOT`; those of the next slot begin where they end.
static STARTS: [u8; 65] = [
    0, 2, 4, 6, 7, 7, 8, 9, 10, 11, 12, 13, 15, 18, 21, 27, 29, 30, 31, 32, 34, 34, 36, 40, 42, 44,
    48, 50, 51, 55, 57, 60, 62, 65, 68, 71, 73, 78, 79, 82, 83, 83, 84, 86, 87, 87, 93, 97, 100,
    103, 107, 110, 112, 115, 117, 118, 122, 128, 135, 137, 139, 141, 144, 144, 147,
];

/// The keywords, in the order of their slots.
static BY_SLOT: [Keyword; 147] = [
    Keyword::Joined,
    Keyword::PortBackAnnotate,
    Keyword::Unit,
    Keyword::Justify,
    Keyword::PhysicalDesignRule,
    Keyword::PortImplementation,
    Keyword::Unused,
    Keyword::UserData,
    Keyword::GridMap,
    Keyword::Dot,
    Keyword::Rename,
    Keyword::Delay,
    Keyword::Design,
    Keyword::Display,
    Keyword::Rectangle,
    Keyword::Owner,
    Keyword::Arc,
    Keyword::GlobalPortRef,
    Keyword::Direction,
    Keyword::Dominates,
    Keyword::Origin,
    Keyword::Array,
    Keyword::Designator,
    Keyword::DataOrigin,
    Keyword::After,
    Keyword::Apply,
    Keyword::Derivation,
    Keyword::Author,
    Keyword::AcLoad,
    Keyword::OpenShape,
    Keyword::Annotate,
    Keyword::Orientation,
    Keyword::Library,
    Keyword::When,
    Keyword::LoadDelay,
    Keyword::LogicPort,
    Keyword::LibraryRef,
    Keyword::Written,
    Keyword::ListOfNets,
    Keyword::LogicValue,
    Keyword::ListOfPorts,
    Keyword::OffPageConnector,
    Keyword::Integer,
    Keyword::True,
    Keyword::Instance,
    Keyword::ArrayRelatedInfo,
    Keyword::Table,
    Keyword::WeakJoined,
    Keyword::Interface,
    Keyword::Timing,
    Keyword::False,
    Keyword::InstanceRef,
    Keyword::Figure,
    Keyword::Follow,
    Keyword::InstanceMap,
    Keyword::TimeStamp,
    Keyword::Transform,
    Keyword::Technology,
    Keyword::InstanceGroup,
    Keyword::TextHeight,
    Keyword::Cell,
    Keyword::Fabricate,
    Keyword::Color,
    Keyword::Curve,
    Keyword::Cycle,
    Keyword::Net,
    Keyword::Circle,
    Keyword::FigureGroup,
    Keyword::CellRef,
    Keyword::Comment,
    Keyword::Name,
    Keyword::CellType,
    Keyword::Contents,
    Keyword::Number,
    Keyword::FigureGroupRef,
    Keyword::ForbiddenEvent,
    Keyword::NetMap,
    Keyword::NetRef,
    Keyword::InstanceBackAnnotate,
    Keyword::Criticality,
    Keyword::NetDelay,
    Keyword::NetGroup,
    Keyword::NetBundle,
    Keyword::FigureGroupOverride,
    Keyword::View,
    Keyword::CommentGraphics,
    Keyword::NonPermutable,
    Keyword::ViewRef,
    Keyword::KeywordMap,
    Keyword::Version,
    Keyword::NetBackAnnotate,
    Keyword::ViewMap,
    Keyword::Visible,
    Keyword::E,
    Keyword::ViewType,
    Keyword::NumberDefinition,
    Keyword::ViewList,
    Keyword::KeywordLevel,
    Keyword::KeywordAlias,
    Keyword::Site,
    Keyword::Scale,
    Keyword::KeywordDefine,
    Keyword::Shape,
    Keyword::String,
    Keyword::Edif,
    Keyword::Status,
    Keyword::Symbol,
    Keyword::Event,
    Keyword::Pt,
    Keyword::Section,
    Keyword::Simulate,
    Keyword::Symmetry,
    Keyword::Port,
    Keyword::Page,
    Keyword::Path,
    Keyword::External,
    Keyword::Point,
    Keyword::EdifLevel,
    Keyword::PortRef,
    Keyword::Program,
    Keyword::Polygon,
    Keyword::PortMap,
    Keyword::Property,
    Keyword::EdifVersion,
    Keyword::Mnm,
    Keyword::PageSize,
    Keyword::PortList,
    Keyword::StringDisplay,
    Keyword::Boolean,
    Keyword::Parameter,
    Keyword::PathDelay,
    Keyword::PointList,
    Keyword::PortDelay,
    Keyword::PortGroup,
    Keyword::SimulationInfo,
    Keyword::Permutable,
    Keyword::PortBundle,
    Keyword::Member,
    Keyword::BaseArray,
    Keyword::MiNoMax,
    Keyword::PortInstance,
    Keyword::BoundingBox,
    Keyword::MustJoin,
    Keyword::PortListAlias,
    Keyword::ParameterAssign,
    Keyword::PropertyDisplay,
    Keyword::ProtectionFrame,
];

/// Where the keywords of a slot begin.
#[tactic(auto, unfolding(crate::specs::Slots::start_at))]
fn start_at(slot: usize) -> usize
    requires { slot ≤ SLOTS }
    ensures { result ≡ start_at slot }
{
    usize::from(STARTS[slot])
}

/// A part of the keywords.
#[tactic(auto, unfolding(crate::specs::Slots::part))]
fn part(start: usize, end: usize) -> &'static [Keyword]
    requires order { start ≤ end }
    requires within { end ≤ 147 }
    ensures { result.now ≡ part start end }
{
    &BY_SLOT[start..end]
}

/// The keywords of a slot.
#[tactic(auto, using(crate::proofs::Slots::starts))]
fn of_slot(slot: usize) -> &'static [Keyword]
    requires { slot < SLOTS }
    ensures { result.now ≡ of_slot slot }
{
    part(start_at(slot), start_at(slot + 1))
}

/// The keywords that a word may be.
#[tactic(auto, unfolding(crate::specs::Slots::candidates))]
fn candidates(word: &[u8]) -> &'static [Keyword]
    ensures { result.now ≡ candidates word.now }
{
    match word {
        [first, ..] => of_slot((word.len() + 41 * usize::from(first.to_ascii_lowercase())) % SLOTS),
        [] => &[],
    }
}

/// The first of some keywords that is spelled so, up to case.
fn find_among(word: &[u8], keywords: &[Keyword]) -> Option<Keyword>
    ensures { result ≡ find (is_spelled word.now) keywords.now }
{
    for keyword in keywords {
        if fold_eq(word, spelling(*keyword)) {
            return Some(*keyword);
        }
    }
    None
}

/// The keyword that is spelled so, up to case.
#[tactic(auto, using(crate::proofs::Slots::candidates_suffice))]
pub fn find_keyword(word: &[u8]) -> Option<Keyword>
    ensures { result ≡ keyword_of word.now }
{
    find_among(word, candidates(word))
}

/// The keyword that is spelled so, up to case, where it is one of those that are allowed: these are few, and the word is compared
/// with each.
#[tactic(auto, using(crate::proofs::Allowed::allowed_suffice))]
pub(crate) fn find_allowed(word: &[u8], allowed: &[Keyword]) -> Option<Keyword>
    ensures { result ≡ allowed_keyword allowed.now word.now }
{
    find_among(word, allowed)
}

/// The first of some keywords that some bytes begin with, as it is spelled in the standard, with a byte behind it that may follow a
/// word. Most keywords of a text are spelled so.
#[inline(always)]
pub(crate) fn find_shown(bytes: &[u8], allowed: &[Keyword]) -> Option<Keyword>
    ensures { result ≡ find (shows_keyword bytes.now) allowed.now }
{
    for keyword in allowed {
        if shows_word(bytes, spelling(*keyword)) {
            return Some(*keyword);
        }
    }
    None
}
