// The answers of the calls as numbers, for programs in other languages: structs of numbers, defined, and tabled in literal numbers.
#![tactic(auto)]

ghost use Rattle.std.specs.Prelude.{◌≡◌};
ghost use Rattle.call_numbers.specs.Numbers.{written_numbers, ending_numbers, turned_numbers, made_numbers, queued_numbers, service_numbers};
ghost use Rattle.call_numbers.specs.Numbers.{tables_numbers, kind_of, numbered_numbers, found_numbers, bounds_numbers};

use dictionaries::StringKind;
use dictionary_lookups::{StringBounds, StringFound};
use dictionary_numberings::DictionaryWritten;
use queues::{Queued, Service};
use table_answers::TablesWritten;
use turns::{TurnEnding, Turned};
use uploads::Made;
use words::Written;

// What a call that writes to one buffer answers, or that says how long one has to be: the number of the test that refused it, or 0; and
// the words written or asked for.
#[repr(C)]
#[derive(Clone, Copy)]
pub struct WrittenNumbers {
    pub refused: u32,
    pub words: usize,
}

// What a turn answers: its ending by number; the number of the test that refused it, or 0; its steps; and the words written to the state
// and to the output.
#[repr(C)]
#[derive(Clone, Copy)]
pub struct TurnedNumbers {
    pub ending: u32,
    pub refused: u32,
    pub steps: u32,
    pub saved: usize,
    pub listed: usize,
}

// An ending by its number, and the number of the test that refused a turn, or 0.
#[derive(Clone, Copy)]
pub struct EndingNumbers {
    pub ending: u32,
    pub refused: u32,
}

// What making tables answers: the number of the test that refused it, or 0; and the words written to the rows, to POS, to OSP and to the
// report.
#[repr(C)]
#[derive(Clone, Copy)]
pub struct MadeNumbers {
    pub refused: u32,
    pub rows: usize,
    pub pos: usize,
    pub osp: usize,
    pub report: usize,
}

// What writing tables answers: the number of the test that refused it, or 0; and the words written to the rows, to POS and to OSP.
#[repr(C)]
#[derive(Clone, Copy)]
pub struct TablesNumbers {
    pub refused: u32,
    pub rows: usize,
    pub pos: usize,
    pub osp: usize,
}

// What joining and topping up answer: the number of the test that refused it, or 0; and how many entries the line and the list set aside
// have now.
#[repr(C)]
#[derive(Clone, Copy)]
pub struct QueuedNumbers {
    pub refused: u32,
    pub waiting: usize,
    pub resting: usize,
}

// What serving answers: what the turn did; whose it was, and the steps left to it; and how many entries the line and the list set aside
// have now.
#[repr(C)]
#[derive(Clone, Copy)]
pub struct ServiceNumbers {
    pub ending: u32,
    pub refused: u32,
    pub steps: u32,
    pub owner: u32,
    pub left: u64,
    pub saved: usize,
    pub listed: usize,
    pub waiting: usize,
    pub resting: usize,
}

// What numbering strings answers: the number of the test that refused it, or 0; and the bytes and the strings of the dictionary.
#[repr(C)]
#[derive(Clone, Copy)]
pub struct NumberedNumbers {
    pub refused: u32,
    pub bytes: usize,
    pub strings: usize,
}

// What looking for a string answers: the number of the test that refused it, or 0; whether it is there; and its number, or its rank.
#[repr(C)]
#[derive(Clone, Copy)]
pub struct FoundNumbers {
    pub refused: u32,
    pub present: u32,
    pub number: usize,
}

// What the string of a number is: the number of the test that refused it, or 0; whether it is there; and where its bytes start and end.
#[repr(C)]
#[derive(Clone, Copy)]
pub struct BoundsNumbers {
    pub refused: u32,
    pub present: u32,
    pub start: usize,
    pub end: usize,
}

// The endings of a turn, by their numbers.
pub const DONE: u32 = 0;

pub const SPENT: u32 = 1;

pub const FULL: u32 = 2;

pub const REFUSED: u32 = 3;

// The kinds of strings, by their numbers; every number but that of names means texts.
pub const NAMES: u32 = 0;

pub const TEXTS: u32 = 1;

// Whether a dictionary has a string or a number, by these.
pub const ABSENT: u32 = 0;

pub const PRESENT: u32 = 1;

// The numbers of an answer: no words are written by a refused call.
impl From<Written> for WrittenNumbers {
    ghost from_gives = { λ w numbers. numbers ≡ written_numbers w };

    fn from(w: Written) -> Self {
        match w {
            Written::Words(n) => WrittenNumbers {
                refused: 0,
                words: n,
            },
            Written::Refused(number) => WrittenNumbers {
                refused: number,
                words: 0,
            },
        }
    }
}

// The numbers of an ending: of a served turn the test's is 0.
impl From<TurnEnding> for EndingNumbers {
    ghost from_gives = { λ e numbers. numbers ≡ ending_numbers e };

    fn from(e: TurnEnding) -> Self {
        match e {
            TurnEnding::Done => EndingNumbers {
                ending: DONE,
                refused: 0,
            },
            TurnEnding::Spent => EndingNumbers {
                ending: SPENT,
                refused: 0,
            },
            TurnEnding::Full => EndingNumbers {
                ending: FULL,
                refused: 0,
            },
            TurnEnding::Refused(number) => EndingNumbers {
                ending: REFUSED,
                refused: number,
            },
        }
    }
}

// The numbers of a turn's answer.
impl From<Turned> for TurnedNumbers {
    ghost from_gives = { λ t numbers. numbers ≡ turned_numbers t };

    fn from(t: Turned) -> Self {
        let e = EndingNumbers::from(t.ending);
        TurnedNumbers {
            ending: e.ending,
            refused: e.refused,
            steps: t.steps,
            saved: t.saved,
            listed: t.listed,
        }
    }
}

// The numbers of what making tables answers: no words are written by a refused call.
impl From<Made> for MadeNumbers {
    ghost from_gives = { λ m numbers. numbers ≡ made_numbers m };

    fn from(m: Made) -> Self {
        match m {
            Made::Words {
                rows,
                pos,
                osp,
                report,
            } => MadeNumbers {
                refused: 0,
                rows,
                pos,
                osp,
                report,
            },
            Made::Refused(number) => MadeNumbers {
                refused: number,
                rows: 0,
                pos: 0,
                osp: 0,
                report: 0,
            },
        }
    }
}

// The numbers of what writing a view and growing a wood answer: no words are written by a refused call.
impl From<TablesWritten> for TablesNumbers {
    ghost from_gives = { λ t numbers. numbers ≡ tables_numbers t };

    fn from(t: TablesWritten) -> Self {
        match t {
            TablesWritten::Words { rows, pos, osp } => TablesNumbers {
                refused: 0,
                rows,
                pos,
                osp,
            },
            TablesWritten::Refused(number) => TablesNumbers {
                refused: number,
                rows: 0,
                pos: 0,
                osp: 0,
            },
        }
    }
}

// The numbers of what joining and topping up answer: no entries are counted by a refused call.
impl From<Queued> for QueuedNumbers {
    ghost from_gives = { λ q numbers. numbers ≡ queued_numbers q };

    fn from(q: Queued) -> Self {
        match q {
            Queued::Lists(waiting, resting) => QueuedNumbers {
                refused: 0,
                waiting,
                resting,
            },
            Queued::Refused(number) => QueuedNumbers {
                refused: number,
                waiting: 0,
                resting: 0,
            },
        }
    }
}

// The numbers of what serving answers.
impl From<Service> for ServiceNumbers {
    ghost from_gives = { λ s numbers. numbers ≡ service_numbers s };

    fn from(s: Service) -> Self {
        let turned = s.turned;
        let by = EndingNumbers::from(turned.ending);
        ServiceNumbers {
            ending: by.ending,
            refused: by.refused,
            steps: turned.steps,
            owner: s.owner,
            left: s.left,
            saved: turned.saved,
            listed: turned.listed,
            waiting: s.waiting,
            resting: s.resting,
        }
    }
}

// The kind of strings that a number means.
pub fn kind_of(number: u32) -> StringKind
    ensures { result ≡ kind_of number }
{
    match number {
        NAMES => StringKind::Names,
        _ => StringKind::Texts,
    }
}

// The numbers of what numbering strings answers: nothing is written by a refused call.
impl From<DictionaryWritten> for NumberedNumbers {
    ghost from_gives = { λ d numbers. numbers ≡ numbered_numbers d };

    fn from(d: DictionaryWritten) -> Self {
        match d {
            DictionaryWritten::Sizes { bytes, strings } => NumberedNumbers {
                refused: 0,
                bytes,
                strings,
            },
            DictionaryWritten::Refused(number) => NumberedNumbers {
                refused: number,
                bytes: 0,
                strings: 0,
            },
        }
    }
}

// The numbers of what looking for a string answers.
impl From<StringFound> for FoundNumbers {
    ghost from_gives = { λ f numbers. numbers ≡ found_numbers f };

    fn from(f: StringFound) -> Self {
        match f {
            StringFound::At(n) => FoundNumbers {
                refused: 0,
                present: PRESENT,
                number: n,
            },
            StringFound::Absent(rank) => FoundNumbers {
                refused: 0,
                present: ABSENT,
                number: rank,
            },
            StringFound::Refused(number) => FoundNumbers {
                refused: number,
                present: ABSENT,
                number: 0,
            },
        }
    }
}

// The numbers of what the string of a number is.
impl From<StringBounds> for BoundsNumbers {
    ghost from_gives = { λ b numbers. numbers ≡ bounds_numbers b };

    fn from(b: StringBounds) -> Self {
        match b {
            StringBounds::Part(start, end) => BoundsNumbers {
                refused: 0,
                present: PRESENT,
                start,
                end,
            },
            StringBounds::Past => BoundsNumbers {
                refused: 0,
                present: ABSENT,
                start: 0,
                end: 0,
            },
            StringBounds::Refused(number) => BoundsNumbers {
                refused: number,
                present: ABSENT,
                start: 0,
                end: 0,
            },
        }
    }
}
