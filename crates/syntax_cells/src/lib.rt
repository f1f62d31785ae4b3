// The grammar's table in 508 words that the caller lends, made once for a text, and what a symbol does at a kind of token by it.
// Words 0 to 63 have where each symbol's cells begin, 4096 more where it passes elsewhere; then the symbols that cells put in place; then
// the cells of all symbols, pushed together: the symbol that a cell is of, and 128 times the cell's number. 127 is of none.
#![tactic(auto)]

ghost use Rattle.std.specs.Prelude.{◌≡◌, ◌<◌};
ghost use Rattle.syntax.specs.Cells.{misplaced};
ghost use Rattle.syntax.specs.Grammar.{cell_of};
ghost use Rattle.syntax_cells.specs.TableWords.{grammar_words};
ghost use Rattle.syntax_cells.specs.Finding.{action_of, cell_by, PlacesFew};

pub const GRAMMAR: [u32; 508] = [
    190, 196, 340, 296, 282, 4435, 284, 332, 207, 179, 195, 334, 224, 205, 196, 216, 286, 4260,
    4299, 329, 4314, 4396, 4332, 272, 277, 339, 345, 304, 234, 4395, 4395, 235, 253, 249, 304,
    4427, 363, 4460, 4428, 227, 4434, 4415, 4425, 4427, 357, 321, 322, 324, 325, 325, 338, 345,
    333, 380, 197, 197, 197, 197, 197, 197, 197, 197, 197, 197, 100, 15, 45, 18, 107, 17, 15, 45,
    8, 101, 47, 15, 45, 17, 46, 48, 8, 49, 50, 8, 97, 49, 3, 9, 35, 38, 41, 53, 8, 49, 50, 8, 98,
    49, 24, 25, 19, 16, 15, 45, 47, 100, 15, 45, 106, 18, 27, 105, 17, 15, 45, 48, 8, 49, 117, 40,
    23, 102, 22, 20, 23, 103, 22, 20, 24, 25, 109, 33, 28, 29, 30, 49, 28, 29, 114, 30, 52, 48, 32,
    112, 1, 2, 0, 11, 99, 12, 23, 104, 22, 24, 25, 31, 28, 113, 29, 34, 110, 33, 44, 118, 42, 44,
    119, 43, 51, 36, 37, 51, 39, 40, 6, 5, 24, 26, 27, 112, 34, 108, 48, 7, 96, 5, 100, 14, 115,
    37, 116, 40, 4, 10, 13, 21, 111, 821646, 821646, 821646, 806286, 49166, 1443086, 821646,
    806286, 257, 1206025, 1581833, 392, 40974, 32782, 40974, 1443086, 49166, 1181440, 707840, 273,
    821135, 821135, 821135, 805775, 49167, 1443087, 821135, 805775, 593678, 904078, 1525001,
    1557415, 40975, 32783, 40975, 1443087, 49167, 855314, 1270684, 1270684, 1270684, 1255324,
    1270684, 1255324, 1270684, 1255324, 1525002, 528654, 398, 903567, 40988, 32796, 40988, 1443100,
    49180, 1590028, 526093, 1066400, 1066400, 1066400, 1051040, 1066400, 1051040, 1066400, 1051040,
    944551, 944551, 528143, 143, 40992, 32800, 40992, 1443104, 49184, 1598228, 526092, 407, 407,
    407, 804247, 49175, 1443095, 407, 804247, 1156383, 1149215, 1508740, 1083676, 40983, 32791,
    40983, 1443095, 49175, 1230614, 1475999, 1475999, 1475999, 1475999, 1475999, 1475999, 1508739,
    1459484, 280, 289, 1018261, 1018261, 1304353, 1606432, 418, 418, 418, 804258, 418, 804258, 418,
    804258, 40981, 32789, 40981, 144, 40994, 32802, 40994, 1443106, 49186, 1573763, 1018261,
    1492358, 651142, 651142, 651142, 651142, 651142, 985491, 985491, 1426820, 666503, 144, 144,
    106507, 1508228, 272, 1557928, 1508741, 281, 40979, 32787, 40979, 395, 1426819, 49178, 32779,
    40971, 258, 1508227, 985491, 1598229, 1083675, 40962, 1328937, 1353513, 756999, 32794, 40986,
    1279773, 1116446, 1378211, 1541028, 1541541, 1402662, 1353002, 1328427, 428, 429, 302, 303,
    945064, 945064, 304, 305, 306, 307, 308, 309, 127, 127, 127, 127, 127, 127, 666503, 127,
    1426821, 127, 127, 127, 127, 127, 127, 127, 127, 127, 127, 127, 127, 127, 127, 127, 127, 127,
    127, 127, 127, 127, 127, 127, 127, 127, 127, 127, 127, 127, 127, 127, 127, 127, 127, 127, 127,
    127, 127, 127, 127, 127, 127, 127, 127, 127, 127, 127, 127, 127, 127, 127, 127, 127, 127, 127,
    127, 127, 127, 127, 127, 127, 127, 127, 127, 127, 127, 127, 127, 127, 127, 127, 127, 127, 127,
    127, 127, 127, 127, 127, 127, 127, 127, 127, 127, 127, 127, 127, 127, 127, 127, 127, 127, 127,
    127, 127, 127, 127, 127, 127, 127, 127, 127, 127, 127, 127, 127, 127, 127, 127, 127, 127, 127,
    127, 127, 127, 127, 127, 127,
];

// Symbols of the table that are put in place of one that takes a token, and whether the token is written.
#[derive(Clone, Copy)]
pub struct Placing {
    pub writes: bool,
    pub start: usize,
    pub size: usize,
}

// What a symbol does at a token: it refuses it by a fault, leaves it to the next symbol, or takes it.
#[derive(Clone, Copy)]
pub enum CellAction {
    Refuse(u32),
    Pass,
    Shift(Placing),
}

// What the number of a cell says.
fn action_of(number: u32) -> CellAction
    ensures { result ≡ action_of number }
{
    match number % 4 {
        0 => CellAction::Refuse(number / 64),
        1 => CellAction::Pass,
        taken => CellAction::Shift(Placing {
            writes: taken == 3,
            start: (number / 64) as usize,
            size: (number / 4 % 16) as usize,
        }),
    }
}

// The fault of a token out of place.
fn misplaced(kind: u32) -> u32
    ensures { result ≡ misplaced kind }
{
    match kind {
        18 | 25 | 27 | 29 => 5,
        20 => 1,
        21 => 2,
        _ => 3,
    }
}

// What a symbol does at a kind of token.
pub fn cell(symbol: u32, kind: u32, table: &[u32]) -> CellAction
    requires { (symbol < 64) × (kind < 128) × (table.now ≡ grammar_words) }
    ensures { (cell_by result ≡ cell_of symbol kind) × PlacesFew result }
{
    let row = table[symbol as usize];
    let word = table[(row % 4096 + kind) as usize];
    if word % 128 == symbol {
        action_of(word / 128)
    } else if row >= 4096 {
        CellAction::Pass
    } else {
        CellAction::Refuse(misplaced(kind))
    }
}
