// One line of a job: read, made and answered.
ghost use Rattle.std.specs.Result.{MatchResult};
ghost use Rattle.desk.specs.Desk.{AsItWas};
ghost use Rattle.job.specs.Runner.{Moved};

use crate::reading::{Unread, read_line};
use crate::reply::Reply;
use desk::desk::Desk;
use std::alloc::{AllocError, Global};

// The answer to a line; none to a line without words.
pub fn answer_line<'a>(
    heap: Global,
    desk: &mut Desk,
    line: &'a [u8],
) -> Result<Option<Reply<'a>>, AllocError>
    ensures { MatchResult result (λ reply. Moved desk.old desk.new reply) (λ _. AsItWas desk.old desk.new) }
{
    match read_line(heap, line) {
        Ok(None) => Ok(None),
        Ok(Some(call)) => Ok(Some(Reply(Ok(desk.make(heap, call)?)))),
        Err(Unread::Misread(misread)) => Ok(Some(Reply(Err(misread)))),
        Err(Unread::Memory(error)) => Err(error),
    }
}
