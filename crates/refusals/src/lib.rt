// The words of document 01's refusal sheet that several layers share. The definitions are in specs/.
#![tactic(auto)]

ghost use Rattle.std.specs.Prelude.{◌≡◌};
ghost use Rattle.refusals.specs.Unwritten.{number_of};

// The longest pack that document 01 has.
pub const PACK_LIMIT: usize = 4_294_967_295;

// Why nothing was written: what is lent is too short, or what was given may not be written.
#[derive(Clone, Copy)]
pub enum Unwritten {
    NoRoom,
    Inadmissible,
}

impl From<Unwritten> for u8 {
    ghost from_gives = { λ u n. n ≡ number_of u };

    fn from(u: Unwritten) -> u8 {
        match u {
            Unwritten::NoRoom => 19,
            Unwritten::Inadmissible => 20,
        }
    }
}
