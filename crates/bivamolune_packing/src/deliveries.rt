// The answers of deliver.
ghost use Rattle.std.specs.Prelude.{◌≡◌};
ghost use Rattle.bivamolune_packing.specs.Packing.{packed, AnswerFits};
ghost use Rattle.bivamolune_packing.specs.Answers.{packed_by, Small};

use deliver_accepting::Counts;
use refusals::Refusal;

// what an answer's counts are multiplied by
const UNDOS_UNIT: u32 = 256;

const EXECUTIONS_UNIT: u32 = 65536;

// A code and the counts of undos and executions in one number.
fn pack_answer(code: u32, undos: usize, executions: usize) -> u32
    requires { AnswerFits code undos executions }
    ensures { result ≡ packed code undos executions }
{
    code + UNDOS_UNIT * (undos as u32) + EXECUTIONS_UNIT * (executions as u32)
}

// The number of what deliver answers.
pub fn pack_delivery(answer: Result<Counts, Refusal>) -> u32
    requires { Small answer }
    ensures { result ≡ packed_by answer }
{
    match answer {
        Ok(counts) => pack_answer(0, counts.undos, counts.executions),
        Err(why) => why.code(),
    }
}
