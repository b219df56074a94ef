// The 27 fundamental NCL gates: which patterns of pins set a cell, which cells are retired, and what a kind byte of a stage file stands for.
#![tactic(auto)]

ghost use Rattle.std.specs.Prelude.{◌≡◌, ◌<◌, ◌≤◌, ◌^◌};
ghost use Rattle.gates.specs.Cell.{set_bit, at_least, pin_count, is_retired, kind_of};
ghost use Rattle.gates.specs.Table.{GateTable};

// What a kind byte stands for: a cell with hold, which falls when all of its pins are low; a relaxed one, which falls as soon as its set
// expression is false; or no kind. It is no `Option`: definitions give each of the three cases its own line (`pins_needed`), and code matches on all three.
#[derive(Clone, Copy)]
pub enum Kind {
    Hold { cell: u8, pins: u8 },
    Relaxed { cell: u8, pins: u8 },
    Unknown,
}

// The table of 432 entries, 16 for each cell: whether its set expression holds, by the pattern of its pins. Pin A is the
// lowest bit of the pattern, and a pin that the cell lacks changes nothing.
const TABLE: [[u8; 16]; 27] = [
    // 1 TH12
    [0, 1, 1, 1, 0, 1, 1, 1, 0, 1, 1, 1, 0, 1, 1, 1],
    // 2 TH22
    [0, 0, 0, 1, 0, 0, 0, 1, 0, 0, 0, 1, 0, 0, 0, 1],
    // 3 TH13
    [0, 1, 1, 1, 1, 1, 1, 1, 0, 1, 1, 1, 1, 1, 1, 1],
    // 4 TH23
    [0, 0, 0, 1, 0, 1, 1, 1, 0, 0, 0, 1, 0, 1, 1, 1],
    // 5 TH33
    [0, 0, 0, 0, 0, 0, 0, 1, 0, 0, 0, 0, 0, 0, 0, 1],
    // 6 TH23w2
    [0, 1, 0, 1, 0, 1, 1, 1, 0, 1, 0, 1, 0, 1, 1, 1],
    // 7 TH33w2
    [0, 0, 0, 1, 0, 1, 0, 1, 0, 0, 0, 1, 0, 1, 0, 1],
    // 8 TH14
    [0, 1, 1, 1, 1, 1, 1, 1, 1, 1, 1, 1, 1, 1, 1, 1],
    // 9 TH24
    [0, 0, 0, 1, 0, 1, 1, 1, 0, 1, 1, 1, 1, 1, 1, 1],
    // 10 TH34
    [0, 0, 0, 0, 0, 0, 0, 1, 0, 0, 0, 1, 0, 1, 1, 1],
    // 11 TH44
    [0, 0, 0, 0, 0, 0, 0, 0, 0, 0, 0, 0, 0, 0, 0, 1],
    // 12 TH24w2
    [0, 1, 0, 1, 0, 1, 1, 1, 0, 1, 1, 1, 1, 1, 1, 1],
    // 13 TH34w2
    [0, 0, 0, 1, 0, 1, 0, 1, 0, 1, 0, 1, 0, 1, 1, 1],
    // 14 TH44w2
    [0, 0, 0, 0, 0, 0, 0, 1, 0, 0, 0, 1, 0, 1, 0, 1],
    // 15 TH34w3
    [0, 1, 0, 1, 0, 1, 0, 1, 0, 1, 0, 1, 0, 1, 1, 1],
    // 16 TH44w3
    [0, 0, 0, 1, 0, 1, 0, 1, 0, 1, 0, 1, 0, 1, 0, 1],
    // 17 TH24w22
    [0, 1, 1, 1, 0, 1, 1, 1, 0, 1, 1, 1, 1, 1, 1, 1],
    // 18 TH34w22
    [0, 0, 0, 1, 0, 1, 1, 1, 0, 1, 1, 1, 0, 1, 1, 1],
    // 19 TH44w22
    [0, 0, 0, 1, 0, 0, 0, 1, 0, 0, 0, 1, 0, 1, 1, 1],
    // 20 TH54w22
    [0, 0, 0, 0, 0, 0, 0, 1, 0, 0, 0, 1, 0, 0, 0, 1],
    // 21 TH34w32
    [0, 1, 0, 1, 0, 1, 1, 1, 0, 1, 1, 1, 0, 1, 1, 1],
    // 22 TH54w32
    [0, 0, 0, 1, 0, 0, 0, 1, 0, 0, 0, 1, 0, 1, 0, 1],
    // 23 TH44w322
    [0, 0, 0, 1, 0, 1, 1, 1, 0, 1, 0, 1, 0, 1, 1, 1],
    // 24 TH54w322
    [0, 0, 0, 1, 0, 1, 0, 1, 0, 0, 0, 1, 0, 1, 1, 1],
    // 25 THxor0
    [0, 0, 0, 1, 0, 0, 0, 1, 0, 0, 0, 1, 1, 1, 1, 1],
    // 26 THand0
    [0, 0, 0, 1, 0, 0, 1, 1, 0, 1, 0, 1, 0, 1, 1, 1],
    // 27 TH24comp
    [0, 0, 0, 0, 0, 1, 1, 1, 0, 1, 1, 1, 0, 1, 1, 1],
];

// The whole table, so that what is promised of the constant is said of all of its entries at once.
pub fn table() -> [[u8; 16]; 27]
    ensures { GateTable result }
{
    TABLE
}

// The table's entry of a cell at a pattern.
fn entry(entries: &[[u8; 16]; 27], cell: u8, pattern: u8) -> u8
    requires { GateTable entries.now × (1 ≤ cell) × (cell ≤ 27) × (pattern < 16) }
    ensures { result ≡ set_bit cell pattern }
{
    let row = (cell - 1) as usize;
    let i = pattern as usize;
    entries[row][i]
}

// 1 where at least m pins of the pattern are high, else 0.
fn at_least(m: u8, pattern: u8) -> u8
    ensures { result ≡ at_least m pattern }
{
    if m as u32 <= u8::count_ones(pattern) {
        1
    } else {
        0
    }
}

// 1 where the pattern sets the cell, else 0: by the count of its high pins for the unweighted THmn, by the table for the others. A
// caller makes the table once and lends it, since each use of the constant writes all of it anew.
pub fn sets(entries: &[[u8; 16]; 27], cell: u8, pattern: u8) -> u8
    requires { GateTable entries.now × (1 ≤ cell) × (cell ≤ 27) × (pattern < 2 ^ pin_count cell) }
    ensures { result ≡ set_bit cell pattern }
{
    match cell {
        1 | 3 | 8 => at_least(1, pattern),
        2 | 4 | 9 => at_least(2, pattern),
        5 | 10 => at_least(3, pattern),
        11 => at_least(4, pattern),
        _ => entry(entries, cell, pattern),
    }
}

// Whether a cell is no longer cast.
pub fn is_retired(cell: u16) -> bool
    ensures { result ≡ is_retired cell }
{
    match cell {
        24 => true,
        _ => false,
    }
}

// The operand count and the rule that a kind byte decides.
pub fn kind_of(kind: u8) -> Kind
    ensures { result ≡ kind_of kind }
{
    match kind {
        1..=2 => Kind::Hold {
            cell: kind,
            pins: 2,
        },
        3..=7 => Kind::Hold {
            cell: kind,
            pins: 3,
        },
        8..=27 => Kind::Hold {
            cell: kind,
            pins: 4,
        },
        129..=130 => Kind::Relaxed {
            cell: kind - 128,
            pins: 2,
        },
        131..=135 => Kind::Relaxed {
            cell: kind - 128,
            pins: 3,
        },
        136..=155 => Kind::Relaxed {
            cell: kind - 128,
            pins: 4,
        },
        _ => Kind::Unknown,
    }
}
