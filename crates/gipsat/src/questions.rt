//! From the bytes of an incremental text to those of its answers.
ghost use Rattle.std.specs.Prelude.{IfOk, IsTrue, OnOk};
ghost use Rattle.std.specs.Io.KnownBytes.{IsAtEnd};
ghost use Rattle.gipsat_answers.specs.Names.{named};
ghost use Rattle.gipsat_answers.specs.Questions.{AreAskedOf, AsksQuestions, IsRightOfAll, OfQuestions, WritesReplies};
ghost use Rattle.gipsat.specs.Searched.{has_limit};

use crate::solve::task_of;
use crate::watch::{Limits, Watch};
use gipsat_answers::{QuestionsError, Replies, answer_questions};
use gipsat_command::Options;
use gipsat_solver::progress::Both;
use std::io::{Read, Write};

/// Answers the questions of a text in order: each within as many conflicts as the options allow, and all within
/// their other limits.
pub fn answer<R: Read, W: Write>(
    rt: &HostRuntime,
    options: &Options,
    reader: &mut R,
    writer: &mut W,
) -> Result<Replies, QuestionsError>
    ensures read_to_end { OnOk result (IsAtEnd (R.remaining reader.new)) }
    ensures has_form { OnOk result (AsksQuestions (R.remaining reader.old)) }
    ensures written { IfOk result (λ told. OfQuestions (R.remaining reader.old) (λ questions.
        WritesReplies options.now.witness options.now.conflicts told.solver.learned told.is_stopped questions
        (W.contents writer.old) (W.contents writer.new))) }
    ensures verdict { IfOk result (λ told. OfQuestions (R.remaining reader.old) (λ questions.
        IsRightOfAll questions told.verdict)) }
    ensures formula { IfOk result (λ told. OfQuestions (R.remaining reader.old)
        (AreAskedOf (named told.names.items told.solver.formula))) }
    ensures stopped { IfOk result (λ told. IsTrue told.is_stopped → IsTrue (has_limit options.now)) }
{
    let mut watch = Watch::new(rt, options)?;
    let task = task_of(options);
    match Limits::asked(&watch, options) {
        None => answer_questions(rt.alloc(), reader, writer, task, &mut watch),
        Some(limits) => {
            let mut limited = Both {
                first: watch,
                second: limits,
            };
            answer_questions(rt.alloc(), reader, writer, task, &mut limited)
        }
    }
}
