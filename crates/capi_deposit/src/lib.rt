// For C, Rust and Python: a pack checked against the deposit profile.
#![tactic(auto)]

ghost use Rattle.std.specs.Prelude.{◌≡◌};
ghost use Rattle.refusals.specs.Limit.{pack_limit};
ghost use Rattle.deposit.specs.Packs.{deposit};
ghost use Rattle.capi_deposit.specs.Deposit.{deposit_answer};

// The word is a refusal's place, or else the count of records.
#[unsafe(no_mangle)]
pub extern "C" fn vof_check_deposit(pack: &[u8]) -> u64
    ensures { result ≡ deposit_answer (deposit pack_limit pack.now) }
{
    match deposit::check(pack) {
        Ok(count) => words::answer(0, count),
        Err(f) => words::answer(u8::from(f), f.place()),
    }
}
