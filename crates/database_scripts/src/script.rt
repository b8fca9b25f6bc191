//! What a script keeps between its lines, and what a line answers.

ghost use Rattle.std.specs.Prelude.{◌≡◌, [], length};

use crate::book::NewBook;
use crate::disks::Disks;
use crate::resting::Resting;
use crate::running::{Running, is_call};
use active_snapshot::{Front, Naming, Shelf, open_book};
use cfg_base::Users;
use script_lines::{
    Answers, AnswersAll, Arg, Asked, Fault, Text, args_of, first_and_rest, say, user_of,
};
use std::alloc::Global;
use std::marker::Brand;
use std::sync::Wait;
use std::thread::Threads;

/// What answers lines of which the first may open a database, whose book of views it brings. Either the database is open, or its
/// disks are at rest. It is not `Drop`: end it by `end`.
struct Script<J: Naming> {
    alloc: Global,
    empty: Option<NewBook<J>>,
    running: Option<Running<J>>,
    disks: Disks,
}

/// What answers a script.
pub(crate) struct Whole;

fn users_of(alloc: Global, names: &[Arg]) -> Result<Users, Fault> {
    let mut users = Users::new(alloc);
    for name in names {
        users.push(user_of(alloc, name)?)?;
    }
    Ok(users)
}

/// Whether a line opens a database.
fn opens(line: &[u8]) -> bool {
    matches!(
        line.split(|byte| *byte == b' ').next(),
        Some(b"create" | b"start")
    )
}

/// Ends a database, where one is open.
fn end_running<R: Wait, J: Naming>(rt: &R, running: Option<Running<J>>) {
    if let Some(running) = running {
        running.close(rt);
    }
}

impl<J: Naming> Script<J> {
    fn of(alloc: Global, disks: Disks, empty: NewBook<J>) -> Script<J> {
        Script {
            alloc,
            empty: Some(empty),
            running: None,
            disks,
        }
    }

    fn running(&mut self) -> Result<&mut Running<J>, Fault> {
        match &mut self.running {
            Some(running) => Ok(running),
            None => Err(Fault::Script("a database is open")),
        }
    }

    /// The database is open from now on.
    fn begin<R: Wait>(
        &mut self,
        rt: &R,
        mut running: Running<J>,
        out: &mut Text,
    ) -> Result<(), Fault> {
        let taken = running.take_readers();
        end_running(rt, self.running.replace(running));
        say(out, "open");
        taken
    }

    /// Opens the database of disks that were at rest.
    fn open_disks<R: Wait>(
        &mut self,
        rt: &R,
        empty: NewBook<J>,
        resting: Resting,
        makes: bool,
        users: Users,
        configuring: Vec<bool>,
        out: &mut Text,
    ) -> Result<(), Fault>
        requires { length configuring.items ≡ length users }
    {
        match resting.open(rt, self.alloc, empty, makes, users, self.disks.limit()) {
            Ok(book) => self.begin(rt, Running::of(self.alloc, book, configuring), out),
            Err(fault) => {
                self.disks.put(Resting::refused(self.alloc, fault, out));
                Ok(())
            }
        }
    }

    fn open_by<R: Wait>(
        &mut self,
        rt: &R,
        empty: NewBook<J>,
        makes: bool,
        users: Users,
        configuring: Vec<bool>,
        out: &mut Text,
    ) -> Result<(), Fault>
        requires { length configuring.items ≡ length users }
    {
        match self.disks.take() {
            Some(resting) => { self.open_disks(rt, empty, resting, makes, users, configuring, out) }
            None => Err(Fault::Script("the database is closed")),
        }
    }

    /// create USER .. and start USER ..: a database on the disks, or why there is none
    fn open<R: Wait>(
        &mut self,
        rt: &R,
        makes: bool,
        names: &[Arg],
        out: &mut Text,
    ) -> Result<(), Fault> {
        let users = users_of(self.alloc, names)?;
        let configuring = Vec::from_elem(self.alloc, false, users.as_slice().len())?;
        match self.empty.take() {
            Some(empty) => self.open_by(rt, empty, makes, users, configuring, out),
            None => Err(Fault::Script("a line opens one database")),
        }
    }

    /// close
    fn close<R: Wait>(&mut self, rt: &R, out: &mut Text) -> Result<(), Fault> {
        match self.running.take() {
            Some(running) => {
                self.disks.put(Resting::closed(running.close(rt), out));
                Ok(())
            }
            None => Err(Fault::Script("a database is open")),
        }
    }

    fn answer_words<R: Wait>(
        &mut self,
        rt: &R,
        name: &str,
        args: &[Arg],
        out: &mut Text,
    ) -> Result<(), Fault> {
        match name {
            "create" => self.open(rt, true, args, out),
            "start" => self.open(rt, false, args, out),
            "close" => self.close(rt, out),
            _ if is_call(name) => {
                let alloc = self.alloc;
                self.running()?.answer(rt, alloc, name, args, out)
            }
            _ => self.disks.answer(rt, self.alloc, name, args, out),
        }
    }

    /// Ends the database, where it is open, and gives the disks back.
    fn end<R: Wait>(self, rt: &R) -> Disks {
        let Script {
            alloc: _,
            empty: _,
            running,
            disks,
        } = self;
        end_running(rt, running);
        disks
    }
}

impl<J: Naming> Answers for Script<J> {
    fn answer<R: Threads + Wait + Sync>(
        &mut self,
        rt: &R,
        line: &str,
        out: &mut Text,
    ) -> Result<(), Fault> {
        let alloc = self.alloc;
        match first_and_rest(line) {
            ("step", rest) => self.running()?.step(rt, alloc, rest, out),
            (name, rest) => self.answer_words(rt, name, &args_of(alloc, rest)?, out),
        }
    }
}

/// Answers lines over the book of that name.
fn answer_by<R: Threads + Wait + Sync, J: Naming>(
    rt: &R,
    alloc: Global,
    shelf: Shelf,
    front: Front,
    asked: &mut Asked,
    disks: Disks,
    lines: &[&[u8]],
) -> Disks
    requires { (front.book ≡ J.book) × (shelf ≡ J.book) × (front.list ≡ []) }
{
    let mut script = Script::<J>::of(alloc, disks, NewBook::of(shelf, front));
    asked.take_all(rt, alloc, &mut script, lines);
    script.end(rt)
}

/// Answers lines of which none but the first opens a database.
fn answer_piece<R: Threads + Wait + Sync>(
    rt: &R,
    alloc: Global,
    asked: &mut Asked,
    disks: Disks,
    lines: &[&[u8]],
) -> Disks {
    let (shelf, front) = open_book();
    answer_by::<R, Brand>(rt, alloc, shelf, front, asked, disks, lines)
}

impl AnswersAll for Whole {
    fn answer_all<R: Threads + Wait + Sync>(
        rt: &R,
        alloc: Global,
        asked: &mut Asked,
        lines: &[&[u8]],
    ) -> Result<(), Fault> {
        let mut disks = Disks::new(alloc)?;
        for piece in lines.chunk_by(|_, line| !opens(line)) {
            disks = answer_piece(rt, alloc, asked, disks, piece);
        }
        Ok(())
    }
}
