// `make` for programs in C or Rust that link the static library: the answer goes out as numbers.
#![tactic(auto)]

ghost use Rattle.std.specs.Prelude.{◌≡◌, length};
ghost use Rattle.job.specs.Answer.{answer, output_after};
ghost use Rattle.maker.specs.Made.{outcome, outcome_of};
ghost use Rattle.coinwhistle.specs.Told.{number_told, line_told, length_told};

use refusals::Refusal;

// The number of a refusal, 0 for an object.
fn number_of(made: Result<usize, Refusal>) -> u32
    ensures { result ≡ number_told (outcome_of made) }
{
    match made {
        Ok(_) => 0,
        Err(refusal) => refusal.number(),
    }
}

// The line that a refusal is about, 0 if it is about none.
fn line_of(made: Result<usize, Refusal>) -> usize
    ensures { result ≡ line_told (outcome_of made) }
{
    match made {
        Ok(_) => 0,
        Err(refusal) => refusal.line(),
    }
}

// The length of the object, or the length that a refusal asks for.
fn needed_of(made: Result<usize, Refusal>) -> usize
    ensures { result ≡ length_told (outcome_of made) }
{
    match made {
        Ok(n) => n,
        Err(refusal) => refusal.needed(),
    }
}

// Answers 0 for an object, and its length through `len`; or the number of the refusal, its line through `line` and the length needed
// through `len`. Whatever does not apply is 0.
#[unsafe(no_mangle)]
pub extern "C" fn coinwhistle_make(
    job: &[u8],
    out: &mut [u8],
    line: &mut usize,
    len: &mut usize,
) -> u32
    ensures value { result ≡ number_told (outcome (answer job.now (length out.old))) }
    ensures line_after { line.new ≡ line_told (outcome (answer job.now (length out.old))) }
    ensures len_after { len.new ≡ length_told (outcome (answer job.now (length out.old))) }
    ensures out_after { out.new ≡ output_after (answer job.now (length out.old)) out.old }
{
    let made = maker::make(job, out);
    let Ok(n) = made else {
        *line = line_of(made);
        *len = needed_of(made);
        return number_of(made);
    };
    *line = 0;
    *len = n;
    0
}
