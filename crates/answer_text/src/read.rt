//! The text of an answer, read line by line, with the first line that is wrong.
ghost use Rattle.std.specs.Prelude.{◌≡◌, ◌<◌, ◌+◌, ◌^◌, ◌∷◌, [], ℕ, length, codes};
ghost use Rattle.std.specs.Prelude.{OnOk, OnErr, IfOk, IfErr, IfSome, Ok, Err, true, false};
ghost use Rattle.line_text.specs.Lines.{text_lines};
ghost use Rattle.answer_text.specs.declared.answer.Answer.{Answer};
ghost use Rattle.answer_text.specs.declared.error.AnswerTextError.TheVariants.{BadLine, NotRising};
ghost use Rattle.answer_text.specs.declared.error.AnswerTextError.TheVariants.{CountDiffers};
ghost use Rattle.answer_text.specs.Line.{loss, plan, spent, order};
ghost use Rattle.answer_text.specs.Text.{IsEnding, Ends, IsAnswerText};
ghost use Rattle.answer_text.specs.Judged.{IsBadLine, IsNotRising, CountIsOther, IsRefused};
ghost use Rattle.answer_text.specs.Judged.{ComesWhere};
ghost use Rattle.answer_text.specs.Reading.{IsNext, Reads, Refuses, RefusesEnding};
ghost use Rattle.answer_text.specs.Reading.{LacksEnd, RefusesRefutation};

use crate::answer::Answer;
use crate::error::AnswerTextError;
use crate::line::{number_on, order_on, plan_on};
use line_text::{Lines, is_end};
use mill_model::{Instance, MAX_NODES, Plan};
use refute_log::{Log, read_log};
use std::alloc::Global;
use std::marker::Model;

/// The greatest loss that a text states.
const MAX_LOSS: u64 = 1_000_000_000_000;

/// The answer to an instance that a text stands for.
///
/// The text begins with the answer's first line. Behind `end` white space may stand, on its line
/// and on further lines, and its line feed may be missing.
pub fn parse_answer(
    alloc: Global,
    instance: &Instance,
    bytes: &[u8],
) -> Result<Answer, AnswerTextError>
    ensures answer { (answer : Answer) → ComesWhere result (Ok answer)
        (IsAnswerText (length instance.now.orders) answer (text_lines bytes.now)) }
    ensures bad_line { (line : ℕ) → ComesWhere result (Err (BadLine line))
        (IsBadLine (length instance.now.orders) (text_lines bytes.now) line) }
    ensures not_rising { (line : ℕ) → ComesWhere result (Err (NotRising line))
        (IsNotRising (length instance.now.orders) (text_lines bytes.now) line) }
    ensures count_differs { (stated found : ℕ) → ComesWhere result (Err (CountDiffers stated found))
        (CountIsOther (length instance.now.orders) (text_lines bytes.now) stated found) }
{
    let orders = instance.orders().len() as u16;
    Reader::new(orders, Lines::new(bytes)).whole(alloc)
}

// Reads an answer line by line.
#[derive(Drop)]
struct Reader<'a> {
    orders: u16,
    read: u64,
    lines: Lines<'a>,
}

impl<'a> Model for Reader<'a> {
    ghost use Rattle.answer_text.specs.Reading.{Reading};

    ghost Value = { Reading };

    ghost view = { λ r. record { orders = r.orders; read = r.read; rest = r.lines } };
}

impl<'a> Reader<'a> {
    fn new(orders: u16, lines: Lines<'a>) -> Reader<'a>
        ensures { result ≡ record { orders = orders; read = 0; rest = lines.entry } }
    {
        Reader {
            orders,
            read: 0,
            lines,
        }
    }

    // The answer that the whole text stands for.
    fn whole(mut self, alloc: Global) -> Result<Answer, AnswerTextError>
        requires start { self.read ≡ 0 }
        requires room { length self.rest < 2 ^ 63 }
        ensures ok { IfOk result (λ answer.
            IsAnswerText self.entry.orders answer self.entry.rest) }
        ensures err { IfErr result (IsRefused self.entry.orders self.entry.rest) }
    {
        let line = self.next_line()?;
        if line == b"optimal".as_slice() {
            self.optimal(alloc)
        } else if line == b"feasible".as_slice() {
            self.feasible(alloc)
        } else if line == b"infeasible".as_slice() {
            self.infeasible()
        } else {
            Err(self.bad_line())
        }
    }

    // The answer that the line `optimal` and the lines behind it stand for.
    fn optimal(mut self, alloc: Global) -> Result<Answer, AnswerTextError>
        requires start { self.read ≡ 1 }
        requires room { length self.rest < 2 ^ 63 }
        ensures ok { IfOk result (λ answer.
            IsAnswerText self.entry.orders answer (codes "optimal" ∷ self.entry.rest)) }
        ensures err { IfErr result
            (IsRefused self.entry.orders (codes "optimal" ∷ self.entry.rest)) }
    {
        let loss = self.loss()?;
        let plan = self.plan(alloc)?;
        let refutation = self.refutation(alloc)?;
        Ok(Answer::Optimal {
            loss,
            plan,
            refutation,
        })
    }

    // The answer that the line `feasible` and the lines behind it stand for.
    fn feasible(mut self, alloc: Global) -> Result<Answer, AnswerTextError>
        requires start { self.read ≡ 1 }
        requires room { length self.rest < 2 ^ 63 }
        ensures ok { IfOk result (λ answer.
            IsAnswerText self.entry.orders answer (codes "feasible" ∷ self.entry.rest)) }
        ensures err { IfErr result
            (IsRefused self.entry.orders (codes "feasible" ∷ self.entry.rest)) }
    {
        let loss = self.loss()?;
        let plan = self.plan(alloc)?;
        let spent = self.spent()?;
        self.end()?;
        Ok(Answer::Feasible { loss, plan, spent })
    }

    // The answer that the line `infeasible` and the lines behind it stand for.
    fn infeasible(mut self) -> Result<Answer, AnswerTextError>
        requires start { self.read ≡ 1 }
        requires room { length self.rest < 2 ^ 63 }
        ensures ok { IfOk result (λ answer.
            IsAnswerText self.entry.orders answer (codes "infeasible" ∷ self.entry.rest)) }
        ensures err { IfErr result
            (IsRefused self.entry.orders (codes "infeasible" ∷ self.entry.rest)) }
    {
        let order = self.order()?;
        self.end()?;
        Ok(Answer::Infeasible { order })
    }

    // The log that stands behind the plan of an optimal answer, if one does, to the text's end.
    fn refutation(self, alloc: Global) -> Result<Option<Log>, AnswerTextError>
        requires start { self.read < 2 ^ 32 }
        requires few { self.orders < 2 ^ 16 }
        requires room { length self.rest < 2 ^ 63 }
        ensures ok { IfOk result (λ refutation. Ends refutation self.entry.rest) }
        ensures orders { IfOk result (λ refutation. IfSome refutation (λ log.
            log.orders ≡ self.entry.orders)) }
        ensures err { IfErr result (RefusesRefutation self.entry) }
    {
        if self.comes_to_end() {
            self.end()?;
            Ok(None)
        } else {
            let log = read_log(alloc, self.orders, self.lines, self.read + 1)?;
            Ok(Some(log))
        }
    }

    fn loss(&mut self) -> Result<u64, AnswerTextError>
        requires { self.old.read < 2 ^ 63 }
        ensures ok { IfOk result (λ lost. Reads self.old (loss lost) self.new) }
        ensures err { IfErr result (Refuses loss self.old) }
    {
        let line = self.next_line()?;
        number_on(line, b"loss", MAX_LOSS).ok_or(self.bad_line())
    }

    fn plan(&mut self, alloc: Global) -> Result<Plan, AnswerTextError>
        requires { self.old.read < 2 ^ 63 }
        ensures ok { IfOk result (λ slabs. Reads self.old (plan slabs) self.new) }
        ensures err { IfErr result (Refuses plan self.old) }
    {
        let line = self.next_line()?;
        plan_on(alloc, line, self.orders)?.ok_or(self.bad_line())
    }

    fn spent(&mut self) -> Result<u64, AnswerTextError>
        requires { self.old.read < 2 ^ 63 }
        ensures ok { IfOk result (λ closed. Reads self.old (spent closed) self.new) }
        ensures err { IfErr result (Refuses spent self.old) }
    {
        let line = self.next_line()?;
        number_on(line, b"spent", MAX_NODES).ok_or(self.bad_line())
    }

    fn order(&mut self) -> Result<u16, AnswerTextError>
        requires { self.old.read < 2 ^ 63 }
        ensures ok { IfOk result (λ place. Reads self.old (order place) self.new) }
        ensures err { IfErr result (Refuses order self.old) }
    {
        let line = self.next_line()?;
        order_on(line, self.orders).ok_or(self.bad_line())
    }

    // Whether `end` is the next line.
    fn comes_to_end(&self) -> bool
        ensures yes { result ≡ true → ¬ (LacksEnd self.now.rest) }
        ensures no { result ≡ false → LacksEnd self.now.rest }
    {
        match self.lines.peek() {
            Some(line) => is_end(line),
            None => false,
        }
    }

    // Reads `end`, and judges what stands behind it.
    fn end(mut self) -> Result<(), AnswerTextError>
        requires start { self.read < 2 ^ 32 }
        requires room { length self.rest < 2 ^ 63 }
        ensures ok { OnOk result (IsEnding self.entry.rest) }
        ensures err { IfErr result (RefusesEnding self.entry) }
    {
        let line = self.next_line()?;
        if !is_end(line) {
            return Err(self.bad_line());
        }
        let next = self.read + 1;
        match self.lines.first_filled() {
            Some(behind) => Err(AnswerTextError::BadLine {
                line: next + behind,
            }),
            None => Ok(()),
        }
    }

    // The next line, which is then the last that was read.
    fn next_line(&mut self) -> Result<&'a [u8], AnswerTextError>
        requires { self.old.read < 2 ^ 63 }
        ensures ok { IfOk result (λ line. IsNext self.old line.now self.new) }
        ensures none { OnErr result (self.old.rest ≡ []) }
        ensures err { IfErr result (λ error. error ≡ BadLine (self.old.read + 1)) }
    {
        self.read += 1;
        match self.lines.next_line() {
            Some(line) => Ok(line),
            None => Err(self.bad_line()),
        }
    }

    // The refusal of the line that was read last.
    fn bad_line(&self) -> AnswerTextError
        ensures { result ≡ BadLine self.now.read }
    {
        AnswerTextError::BadLine { line: self.read }
    }
}
