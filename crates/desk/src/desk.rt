// What a job has made so far, and the calls on it.
ghost use Rattle.std.specs.Prelude.{◌≡◌, ℕ, ◌<◌, ◌≤◌, length, min, IfOk, Ok, Err, MatchOption, MatchResult};
ghost use Rattle.desk.specs.Desk.{Answers, AsItWas, AskedBy, BookTold, Chosen, EditMade, Empty, Inquired, IrcMade, Made, ReadMade, RowAdded, TableMade, There, ToldBy, stands_of, told_of};
ghost use Rattle.desk.specs.declared.answer.Answer.TheVariants as answer;
ghost use Rattle.desk.specs.declared.answer.Missing.TheVariants as missing;

use crate::answer::{Answer, Edited, Missing, Stands, Verdict};
use crate::call::{Call, Choice, Inquiry};
use pegs::edit::Edit;
use profile::profile::Profile;
use rules::code::RoadCode;
use rules::grade::Grade;
use rules::irc::Irc;
use rules::length::Length;
use rules::refusal::Refusal;
use rules::road::RoadFigures;
use rules::shortest::shortest;
use rules::stricter::Stricter;
use rules::table::{LengthTable, Row};
use rules::turn::Turn;
use std::alloc::{AllocError, Global};

// A length table that was accepted, with rows of its own.
// stays: the clause is a plain number, as in the table that is made of it
#[derive(Drop)]
pub struct KeptTable {
    rows: Vec<Row>,
    bound: u32,
    clause: u8,
}

// The profile of a job, its codes, the rows since its last table, and which code judges.
#[derive(Drop)]
pub struct Desk {
    profile: Profile,
    irc: Option<Irc>,
    rows: Vec<Row>,
    table: Option<KeptTable>,
    choice: Option<Choice>,
}

// What a code judges of an inquiry, or the first reason against the inquiry's figures.
fn judge<C: RoadCode>(code: &C, by: Choice, inquiry: Inquiry) -> Result<Answer, Refusal>
    ensures { Answers (C.grade_verdict code.now) (C.curve_verdict code.now) by inquiry result }
{
    match inquiry {
        Inquiry::Grade { from, to } => {
            let grade = Grade::between(from, to)?;
            let told = code.grade(grade);
            Ok(Answer::Verdict(Verdict { told, by }))
        }
        Inquiry::Curve {
            before,
            at,
            after,
            length,
        } => {
            let turn = Turn::through(before, at, after)?;
            let length = Length::new(length)?;
            let told = code.curve(turn, length);
            Ok(Answer::Verdict(Verdict { told, by }))
        }
        Inquiry::Shortest { before, at, after } => {
            let turn = Turn::through(before, at, after)?;
            Ok(Answer::Shortest(shortest(code, turn)))
        }
    }
}

// What a code answers to an inquiry.
fn ask<C: RoadCode>(code: &C, by: Choice, inquiry: Inquiry) -> Answer
    ensures { ToldBy (C.grade_verdict code.now) (C.curve_verdict code.now) by inquiry (Ok result) }
{
    judge(code, by, inquiry).unwrap_or_else(Answer::Refused)
}

// A profile's book, copied from a buffer of the length that is asked for, or of 795 bytes.
// stays: a match, since the copying in one arm can want memory, and what is too short is an answer and no error
fn copy_book(heap: Global, profile: &Profile, out: &mut [u8]) -> Result<Answer, AllocError>
    ensures { IfOk result (λ a. (size : ℕ) → length out.old ≡ min size 795 → BookTold profile.now.tables size a) }
{
    match profile.write_book(out) {
        Ok(count) => Ok(Answer::Book(Ok(Vec::from_slice(heap, &out[..count])?))),
        Err(short) => Ok(Answer::Book(Err(short))),
    }
}

impl KeptTable {
    fn code(&self) -> LengthTable<'_>
        ensures rows { result.rows.now ≡ self.now.rows.items }
        ensures bound { result.bound ≡ self.now.bound }
        ensures clause { result.clause ≡ self.now.clause }
    {
        LengthTable {
            rows: self.rows.as_slice(),
            bound: self.bound,
            clause: self.clause,
        }
    }
}

impl Desk {
    // A desk with nothing on it.
    pub fn new(heap: Global) -> Desk
        ensures { Empty result }
    {
        Desk {
            profile: Profile::new(),
            irc: None,
            rows: Vec::new(heap),
            table: None,
            choice: None,
        }
    }

    fn irc_made(&self) -> Result<Irc, Missing>
        ensures { MatchOption self.now.irc (result ≡ Err missing.Irc) (λ c. result ≡ Ok c) }
    {
        self.irc.ok_or(Missing::Irc)
    }

    fn table_made(&self) -> Result<LengthTable<'_>, Missing>
        ensures { MatchOption self.now.table (result ≡ Err missing.Table) (λ t. MatchResult result (λ c. (c.rows.now ≡ t.rows.items) × (c.bound ≡ t.bound) × (c.clause ≡ t.clause)) (λ _. ⊥)) }
    {
        self.table
            .as_ref()
            .map(KeptTable::code)
            .ok_or(Missing::Table)
    }

    // The inquiry put to the code that the choice names.
    fn ask_by(&self, choice: Choice, inquiry: Inquiry) -> Result<Answer, Missing>
        ensures { AskedBy self.now choice inquiry result }
    {
        match choice {
            Choice::Irc => Ok(ask(&self.irc_made()?, choice, inquiry)),
            Choice::Table => Ok(ask(&self.table_made()?, choice, inquiry)),
            Choice::IrcThenTable => {
                let first = self.irc_made()?;
                let second = self.table_made()?;
                Ok(ask(&Stricter { first, second }, choice, inquiry))
            }
            Choice::TableThenIrc => {
                let first = self.table_made()?;
                let second = self.irc_made()?;
                Ok(ask(&Stricter { first, second }, choice, inquiry))
            }
        }
    }

    fn inquire(&self, inquiry: Inquiry) -> Result<Answer, Missing>
        ensures { Inquired self.now inquiry (told_of answer.Missing result) }
    {
        let choice = self.choice.ok_or(Missing::Code)?;
        self.ask_by(choice, inquiry)
    }

    fn make_irc(&mut self, figures: RoadFigures) -> Result<Answer, Refusal>
        ensures { IrcMade self.old figures self.new (told_of answer.Refused result) }
    {
        let irc = Irc::new(figures)?;
        self.irc = Some(irc);
        Ok(Answer::Road(irc.asked()))
    }

    fn add_row(&mut self, row: Row) -> Result<Answer, AllocError>
        ensures { MatchResult result (λ a. RowAdded self.old row self.new a) (λ _. AsItWas self.old self.new) }
    {
        self.rows.push(row)?;
        Ok(Answer::Rows(self.rows.len()))
    }

    // A length table of the rows since the last one. Taken or refused, the next row begins a new list.
    fn make_table(&mut self, heap: Global, bound: u32, clause: u32) -> Result<Answer, Refusal>
        ensures { TableMade self.old bound clause self.new (told_of answer.Refused result) }
    {
        let rows = std::mem::replace(&mut self.rows, Vec::new(heap));
        let clause = LengthTable::new(rows.as_slice(), bound, clause)?.clause;
        let count = rows.len();
        self.table = Some(KeptTable {
            rows,
            bound,
            clause,
        });
        Ok(Answer::Table(count))
    }

    // The choice, if the codes that it names are there.
    // stays: a switch beside that of `ask_by`: an enum of the codes in use that is a code itself needs three, one to make it and one for each verdict
    fn there(&self, choice: Choice) -> Result<Choice, Missing>
        ensures { There self.now choice result }
    {
        match choice {
            Choice::Irc => self.irc_made().map(|_| choice),
            Choice::Table => self.table_made().map(|_| choice),
            Choice::IrcThenTable => self.irc_made().and(self.table_made()).map(|_| choice),
            Choice::TableThenIrc => self.table_made().and(self.irc_made()).map(|_| choice),
        }
    }

    fn choose(&mut self, choice: Choice) -> Result<Answer, Missing>
        ensures { Chosen self.old choice self.new (told_of answer.Missing result) }
    {
        let choice = self.there(choice)?;
        self.choice = Some(choice);
        Ok(Answer::InUse(choice))
    }

    // What stands under the number that an edit names.
    fn standing(&self, edit: Edit) -> Stands
        ensures { result ≡ stands_of edit self.now.profile.tables }
    {
        match edit {
            Edit::Place { number, .. } | Edit::Lift { number, .. } => Stands::Peg {
                number,
                held: self.profile.peg(number),
            },
            Edit::Fix { number, .. } | Edit::Clear { number, .. } => Stands::Fixed {
                number,
                held: self.profile.fixed_level(number),
            },
        }
    }

    fn edit(&mut self, edit: Edit) -> Answer
        ensures { EditMade self.old edit self.new result }
    {
        let outcome = self.profile.apply(edit);
        let stands = self.standing(edit);
        Answer::Edited(Edited { outcome, stands })
    }

    // The book in a buffer of so many bytes. No book has more than 795, so no more are set aside.
    // stays: a buffer of fixed size, so that memory is asked for only once a book is written
    fn book(&self, heap: Global, size: u32) -> Result<Answer, AllocError>
        ensures { IfOk result (λ a. BookTold self.now.profile.tables size a) }
    {
        let mut buffer = [0u8; 795];
        let room = size.min(795) as usize;
        copy_book(heap, &self.profile, &mut buffer[..room])
    }

    fn read(&mut self, bytes: &[u8]) -> Answer
        ensures { ReadMade self.old bytes.now self.new result }
    {
        Answer::BookRead(self.profile.read_book(bytes))
    }

    // Makes the call. Where memory for a row is wanting, the desk stays as it was.
    pub fn make(&mut self, heap: Global, call: Call) -> Result<Answer, AllocError>
        ensures { MatchResult result (λ a. Made self.old call self.new a) (λ _. AsItWas self.old self.new) }
    {
        match call {
            Call::New => {
                *self = Desk::new(heap);
                Ok(Answer::Begun)
            }
            Call::Irc(figures) => Ok(self.make_irc(figures).unwrap_or_else(Answer::Refused)),
            Call::Row(row) => self.add_row(row),
            Call::Table { bound, clause } => Ok(
                self.make_table(heap, bound, clause)
                    .unwrap_or_else(Answer::Refused),
            ),
            Call::Use(choice) => Ok(self.choose(choice).unwrap_or_else(Answer::Missing)),
            Call::Ask(inquiry) => Ok(self.inquire(inquiry).unwrap_or_else(Answer::Missing)),
            Call::Edit(edit) => Ok(self.edit(edit)),
            Call::Book { size } => self.book(heap, size),
            Call::Read(bytes) => Ok(self.read(bytes.as_slice())),
        }
    }
}
