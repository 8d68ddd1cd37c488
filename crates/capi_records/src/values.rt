// What a value tells, for whoever opens compressed or encrypted parts.
ghost use Rattle.std.specs.Prelude.{◌≡◌, length};
ghost use Rattle.refusals.specs.Limit.{pack_limit};
ghost use Rattle.value.specs.Reading.{reading};
ghost use Rattle.capi_records.specs.Values.{told_words, value_answer, value_told};

use value::Told;

pub(crate) fn told_words(t: Told) -> [u64; 10]
    ensures { result ≡ told_words t }
{
    let primary = t.primary;
    let secondary = t.secondary;
    [
        primary.start as u64,
        primary.len as u64,
        words::flag(t.present),
        secondary.start as u64,
        secondary.len as u64,
        primary.compression,
        words::flag(primary.encrypted),
        secondary.compression,
        words::flag(secondary.encrypted),
        t.version,
    ]
}

// Start and length of the primary part; whether a secondary part is there, its start and length; `c`
// and `z` of each; `v`. 19: fewer than ten words.
#[unsafe(no_mangle)]
pub extern "C" fn vof_value(value: &[u8], told: &mut [u64]) -> u64
    ensures answer { result ≡ value_answer (reading pack_limit value.now) (length told.old) }
    ensures told { told.new ≡ value_told (reading pack_limit value.now) told.old }
{
    match value::read(value) {
        Ok(t) => {
            if !words::store(told, 0, &told_words(t)) {
                return words::answer(19, 0);
            }
            words::answer(0, 0)
        }
        Err(f) => words::answer(u8::from(f), 0),
    }
}
