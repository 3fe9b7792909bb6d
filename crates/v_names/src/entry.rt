// What the names of a module mean.

ghost use Rattle.std.specs.Prelude.{◌≡◌};

use four_value::Vec4;

/// What a name of a module means. Bounds are the declared indexes of the first and the last bit, 0 where no range is declared.
#[derive(Clone, Copy, Debug)]
pub enum Entry {
    /// A parameter: its value, and whether it is signed.
    Param(Vec4, bool),
    /// A parameter whose value rests on sizes that are refused: it counts as one unsigned bit 0.
    RefusedParam,
    /// A parameter that has no value: it rests on itself.
    WaitingParam,
    Net {
        ranged: bool,
        high: u32,
        low: u32,
        signed: bool,
    },
    Reg {
        ranged: bool,
        high: u32,
        low: u32,
        signed: bool,
    },
    /// A memory: the bounds of a word, and the addresses of the first and the last word.
    Memory {
        ranged: bool,
        high: u32,
        low: u32,
        first: u32,
        last: u32,
        signed: bool,
    },
    Gate,
    Instance,
}
