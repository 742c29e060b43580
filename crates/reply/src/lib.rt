// What the run program prints for its chart file and for a line, at the front of a lent buffer.
#![tactic(auto)]

ghost use Rattle.std.specs.Prelude.{◌≡◌, ◌≤◌, length};
ghost use Rattle.io.specs.Counts.{IsPrefixLen};
ghost use Rattle.texts.specs.Printing.{printed, printed_length};
ghost use Rattle.texts.specs.Texts.{text_of};
ghost use Rattle.runner.specs.Outcomes.{call};
ghost use Rattle.runner.specs.Replies.{answer_reply};
ghost use Rattle.reply.specs.Reply.{reply_text, is_accepted, loading, begin_of, run_reply, respond};

use block::Refusal;
use runner::{Answered, Called, Runner};
use texts::Text;

// "11: the run program's line is ill-formed."
// Kept: a number, since `Reason` names what calls refuse, and this refusal is no call's.
const ILL_FORMED: u32 = 11;

// The runner afterwards, how many bytes were printed, and whether a chart was loaded.
// Kept: runner and length are told of a refused file too, so no Option or Result is of this shape.
// Kept: a length, since the text lies in a buffer that is lent, and no heap holds it.
#[derive(Clone, Copy)]
pub struct Opened {
    pub runner: Runner,
    pub length: usize,
    pub loaded: bool,
}

// The chart line, or the refusal of a file.
// Kept, here and in `respond`: clauses of a length and of a buffer, which callers go by.
#[tactic(auto, using(crate::proofs::Responses::accepts, crate::proofs::Responses::says_loaded))]
pub fn load_chart(runner: Runner, file: &[u8], out: &mut [u8]) -> Opened
    ensures runner_value { result.runner ≡ (loading file.now runner).next }
    ensures loaded_value { result.loaded ≡ is_accepted (loading file.now runner).told.reply }
    ensures length_value { result.length ≡ printed_length (reply_text (loading file.now runner).told.reply) (length out.old) }
    ensures out_after { out.new ≡ printed (reply_text (loading file.now runner).told.reply) out.old }
    ensures prefix_len { IsPrefixLen result.length out.new }
{
    let Called { runner, told } = runner.load(file);
    let length = Text::from(told).print(out);
    Opened {
        runner,
        length,
        loaded: told.is_ok(),
    }
}

// The ending of the run that the numbers of a line ask for, or what is refused.
fn run(runner: Runner, numbers: &[u32]) -> Result<Answered, Refusal>
    requires { 3 ≤ length numbers.now }
    ensures { answer_reply result ≡ run_reply (call (begin_of numbers.now) runner) }
{
    let [mode, allowed, limit, inputs @ ..] = numbers else {
        unreachable!()
    };
    let begun = runner.begin(*mode, inputs, *allowed, *limit);
    begun.told?;
    begun.runner.advance(65535).runner.answer()
}

// The text of a line of that number, by a runner that holds a chart: of the run to its end, or of
// what is refused.
#[tactic(auto, using(crate::proofs::Responses::says_answered, line::proofs::Parsed::numbers_at_front), unfolding(crate::specs::Reply::responded, crate::specs::Reply::respond))]
fn response(runner: Runner, number: u64, line: &[u8]) -> Text
    ensures { text_of result ≡ respond runner number line.now }
{
    let Some(read) = line::parse(line) else {
        return Text::Refused {
            number: ILL_FORMED,
            detail: number,
        };
    };
    // Kept: the front of an array by its count, since `Numbers` is Copy.
    Text::from(run(runner, &read.numbers[..read.count]))
}

// The same, printed. The runner is lent for the line alone.
pub fn respond(runner: Runner, number: u64, line: &[u8], out: &mut [u8]) -> usize
    ensures value { result ≡ printed_length (respond runner number line.now) (length out.old) }
    ensures out_after { out.new ≡ printed (respond runner number line.now) out.old }
{
    response(runner, number, line).print(out)
}
