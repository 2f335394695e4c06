//! A publication under way.
use crate::asked::Asked;
use crate::comparing::{expected, tell_differences};
use crate::dry_run::{Seen, tell_plan};
use crate::made::{Made, made_value, release_ticket, tell_made, unnumbered, untold};
use crate::taking_over::{
    Taken, others_have_put, plan_again, refusal_of, taken_over, tell_left_over, tell_paths,
    tell_taken_over, with_staying,
};
use editor_common::{EditorFault, Outcome, say, say_made, texts_value};
use editor_files::{lent, save};
use editor_folder::View;
use editor_group::{Group, Look, confirm, deliver, look_at, newest};
use editor_ledger::{Ledger, Message, Released};
use editor_options::PublishWord;
use editor_plan::{Stage, advance, last_shown, left_by, touched, unlogged};
use editor_shown::{Found, Shown, commands_of, is_exact};
use serde_json::Value;
use std::alloc::AllocError;
use std::io::Write;
use std::net::{Net, TcpStream};
use std::rt::{Clock, Files};
use std::time::{SystemTime, UNIX_EPOCH};

/// A publication under way: the group that it goes to, and the ledger that records it, which is saved as it
/// changes. It reports to `err`, and keeps its results in `outcome`.
#[derive(Drop)]
pub(crate) struct Publisher<'a, R, E> {
    pub rt: &'a R,
    pub err: &'a mut E,
    pub outcome: &'a mut Outcome,
    pub group: &'a mut Group,
    pub ledger: &'a mut Ledger,
    pub how: &'a PublishWord<'a>,
}

/// Seconds since 1970.
fn seconds<C: Clock>(clock: &C) -> Result<u64, EditorFault> {
    match SystemTime::now(clock) {
        Ok(now) => match now.duration_since(UNIX_EPOCH) {
            Ok(passed) => Ok(passed.as_secs()),
            Err(_) => Err(EditorFault::Clock),
        },
        Err(_) => Err(EditorFault::Clock),
    }
}

impl<R: Files + Net<Stream = TcpStream> + Clock + AllocGlobal, E: Write> Publisher<'_, R, E> {
    fn save(&mut self) -> Result<(), EditorFault> {
        let _ = save(self.rt, self.how.folder, self.ledger)?;
        Ok(())
    }

    /// Sends what is on its way, and saves what came of it, even if sending failed.
    fn send(&mut self) -> Result<(), EditorFault> {
        let patience = self.how.patience;
        let mut saved = save(self.rt, self.how.folder, self.ledger)?;
        let sent = deliver(self.rt, self.err, self.group, &mut saved, patience);
        drop(saved);
        self.save_sent().and(sent)
    }

    /// Saves what came of sending. If that fails, it says what the group may have.
    fn save_sent(&mut self) -> Result<(), EditorFault> {
        let saved = self.save();
        if saved.is_err() {
            let folder = self.how.folder;
            say_made(
                self.err,
                format!(in self.rt.alloc();
                    "{folder}: the group may have what was sent, and the file published can't be written: \
                     once it can, publish again"
                ),
            )?;
        }
        saved
    }

    /// The newest release, if the node in use reports it.
    fn newest_told(&self) -> Result<Option<u64>, EditorFault> {
        Ok(newest(self.rt, self.rt.alloc(), self.group.node()?)?)
    }

    /// The newest release of the node in use. It is a fault if the node does not report it.
    fn newest(&self) -> Result<u64, EditorFault> {
        match self.newest_told()? {
            Some(release) => Ok(release),
            None => Err(untold(self.rt.alloc(), self.group.node()?.url.as_str())?),
        }
    }

    /// The number of the release that was made, as the node in use reports it.
    fn number_made(&self) -> Result<u64, EditorFault> {
        match self.newest_told()? {
            Some(release) => Ok(release),
            None => Err(unnumbered(self.rt.alloc(), self.group.node()?.url.as_str())?),
        }
    }

    /// Adds to the log that a release was made. The ledger is not saved.
    fn note(&mut self, made: Made) -> Result<(), EditorFault> {
        let time = seconds(self.rt)?;
        self.ledger.note(Released {
            release: made.release,
            time,
            commands: made.commands,
            exact: made.exact,
        })?;
        Ok(())
    }

    /// Keeps the message of this publication for a release, if there is one. The ledger is not saved.
    fn say_of(&mut self, made: Made) -> Result<(), AllocError> {
        if let Some(message) = self.how.message {
            let text = String::from_str(self.rt.alloc(), message)?;
            let release = made.release;
            self.ledger.say(Message { release, text })?;
        }
        Ok(())
    }

    /// Keeps a release that was made in the outcome, under a name.
    fn keep_made(&mut self, name: &str, made: Made) -> Result<(), EditorFault> {
        let alloc = self.rt.alloc();
        let value = made_value(alloc, self.group.node()?.url.as_str(), made)?;
        Ok(self.outcome.put(alloc, name, value)?)
    }

    /// Reports a release, and adds it to the log, if the run that made it did not learn its number.
    fn note_unlogged<W: Write>(&mut self, out: &mut W) -> Result<Option<Made>, EditorFault> {
        let Some(commands) = unlogged(self.ledger) else {
            return Ok(None);
        };
        let release = self.newest()?;
        let made = Made {
            release,
            exact: is_exact(true, None, last_shown(self.ledger), release),
            begun: false,
            commands,
        };
        self.note(made)?;
        self.save()?;
        self.keep_made("found", made)?;
        tell_made(self.rt.alloc(), out, self.group.node()?.url.as_str(), made)?;
        Ok(Some(made))
    }

    /// Sends the release that is on its way, and adds it to the log. If it is `fresh`, this run has planned
    /// it; otherwise an interrupted run has.
    fn release(&mut self, ticket: u64, fresh: bool) -> Result<Made, EditorFault> {
        let commands = commands_of(self.ledger, ticket);
        let (before, shown) = (self.newest_told()?, last_shown(self.ledger));
        self.send()?;
        let release = self.number_made()?;
        let made = Made {
            release,
            exact: is_exact(!fresh, before, shown, release),
            begun: !fresh,
            commands,
        };
        self.note(made)?;
        self.say_of(made)?;
        self.save_sent()?;
        Ok(made)
    }

    /// Sends what is on its way, commands or a release, and returns the release if it was one.
    fn send_or_release(&mut self, fresh: bool) -> Result<Option<Made>, EditorFault> {
        match release_ticket(self.ledger) {
            Some(ticket) => Ok(Some(self.release(ticket, fresh)?)),
            None => {
                self.send()?;
                Ok(None)
            }
        }
    }

    /// Asks again for the paths that this publication changes, once its commands, `plan`, are in the log. If
    /// another editor has put something at one of them since, the path is taken over, or the publication is
    /// refused and releases nothing. The node gave the receipts of these commands, so it has each release
    /// that came before them.
    fn ask_again(&mut self, asked: &mut Asked, plan: &[String]) -> Result<(), EditorFault> {
        let alloc = self.rt.alloc();
        let newest = self.newest()?;
        let (node, plan) = (self.group.node()?, lent(alloc, plan)?);
        let mut paths = asked.taken_by(self.rt, alloc, node, newest, &plan)?;
        asked.release = newest.max(asked.release);
        tell_paths(alloc, self.err, "takes over", &paths)?;
        let found = !paths.is_empty();
        asked.taken.append(&mut paths)?;
        self.outcome
            .put(alloc, "takes_over", texts_value(alloc, &asked.taken)?)?;
        if found && !self.how.take_over {
            let left = left_by(self.ledger);
            tell_left_over(alloc, self.err, self.how.folder, left)?;
            return Err(others_have_put(alloc, left)?);
        }
        Ok(())
    }

    /// The texts that are on their way.
    fn plan(&self) -> Result<Vec<String>, AllocError> {
        let mut texts = Vec::new(self.rt.alloc());
        for sent in self.ledger.sent() {
            texts.push(sent.text.clone()?)?;
        }
        Ok(texts)
    }

    /// Sends what is on its way, and returns the release if it was one. After commands it asks the group
    /// again for the paths that they change.
    fn send_and_ask(
        &mut self,
        asked: &mut Asked,
        fresh: bool,
    ) -> Result<Option<Made>, EditorFault> {
        let plan = self.plan()?;
        let made = self.send_or_release(fresh)?;
        if made.is_none() {
            self.ask_again(asked, &plan)?;
        }
        Ok(made)
    }

    /// Sends what an interrupted run left on its way, so that a plan can be made. It returns the release if
    /// it was one.
    fn send_left(&mut self, asked: &mut Asked) -> Result<Option<Made>, EditorFault> {
        if self.ledger.is_idle() {
            return Ok(None);
        }
        self.send_and_ask(asked, false)
    }

    /// Puts the wanted texts into the group, those of `again` again, and releases them. The texts of `stays`
    /// stay although the folder no longer has them. It returns the release that was made last, or nothing if
    /// nothing has changed.
    fn make_release(
        &mut self,
        asked: &mut Asked,
        wanted: &[&str],
        stays: &[String],
        again: &[String],
    ) -> Result<Option<Made>, EditorFault> {
        let mut made = self.send_left(asked)?;
        let texts = with_staying(self.rt.alloc(), wanted, stays)?;
        plan_again(self.rt.alloc(), self.ledger, &texts, again)?;
        for _ in 0..u64::MAX {
            match advance(self.rt.alloc(), self.ledger, &texts)? {
                Stage::Done => break,
                Stage::Sends => made = self.send_and_ask(asked, true)?.or(made),
            }
        }
        Ok(made)
    }

    /// What the release of a publication of these texts has to show. A folder itself says what it removes; of
    /// an earlier release only what changes counts.
    fn expected(&self, wanted: &[&str], left: &[String]) -> Result<Vec<View>, AllocError> {
        let alloc = self.rt.alloc();
        let touched = touched(alloc, self.ledger, wanted)?;
        let all = self.how.release.is_none();
        expected(alloc, wanted, &lent(alloc, &touched)?, all, left)
    }

    /// Whether a release shows what it has to. Each path at which it does not is reported.
    fn shown(&mut self, release: u64, views: &[View]) -> Result<Shown, EditorFault> {
        let alloc = self.rt.alloc();
        let node = self.group.node()?;
        let paths = tell_differences(self.rt, alloc, self.err, node, release, views)?;
        self.outcome
            .put(alloc, "not_shown", texts_value(alloc, &paths)?)?;
        Ok(Shown::of(paths.len()))
    }

    /// Says that nothing has changed, if the group's newest release shows the folder.
    fn tell_same<W: Write>(&mut self, out: &mut W, views: &[View]) -> Result<Shown, EditorFault> {
        let release = self.newest()?;
        let shown = self.shown(release, views)?;
        if shown == Shown::Whole {
            say(
                out,
                "nothing has changed since the last publication of this folder",
            )?;
        }
        Ok(shown)
    }

    /// Reports a release that was made, and checks whether it shows what it has to.
    fn tell_release<W: Write>(
        &mut self,
        out: &mut W,
        made: Made,
        views: &[View],
    ) -> Result<Shown, EditorFault> {
        self.keep_made("release", made)?;
        tell_made(self.rt.alloc(), out, self.group.node()?.url.as_str(), made)?;
        self.shown(made.release, views)
    }

    /// Ends a publication that had nothing to send. Its message goes to the release that an earlier run made
    /// and this one found, if there is one.
    fn say_of_found(&mut self, found: Option<Made>) -> Result<(), EditorFault> {
        let alloc = self.rt.alloc();
        self.outcome.put(alloc, "release", Value::Null)?;
        match found {
            Some(made) => {
                self.say_of(made)?;
                self.save()
            }
            None => Ok(()),
        }
    }

    /// Publishes texts whose ledger the group confirmed, and reports the release that was made, if one was.
    fn send_and_show<W: Write>(
        &mut self,
        out: &mut W,
        wanted: &[&str],
        taken: Taken,
        found: Option<Made>,
    ) -> Result<Shown, EditorFault> {
        let Taken {
            paths,
            again,
            left,
            stays,
            mut asked,
            ..
        } = taken;
        asked.taken = paths;
        let views = self.expected(wanted, &left)?;
        match self.make_release(&mut asked, wanted, &stays, &again)? {
            Some(made) => self.tell_release(out, made, &views),
            None => {
                self.say_of_found(found)?;
                self.tell_same(out, &views)
            }
        }
    }

    /// What a publication takes over, and what it leaves to others. It is kept in the outcome.
    fn taken(&mut self, wanted: &[&str]) -> Result<Taken, EditorFault> {
        let (rt, alloc, take_over) = (self.rt, self.rt.alloc(), self.how.take_over);
        let release = self.newest()?;
        let node = self.group.node()?;
        let taken = taken_over(rt, alloc, node, release, self.ledger, wanted, take_over)?;
        self.outcome
            .put(alloc, "takes_over", texts_value(alloc, &taken.paths)?)?;
        self.outcome
            .put(alloc, "leaves", texts_value(alloc, &taken.left)?)?;
        Ok(taken)
    }

    /// Reports what is taken over, and returns it. It refuses to take over what others have put, unless that
    /// is asked for.
    fn ask_to_take_over(&mut self, wanted: &[&str]) -> Result<Taken, EditorFault> {
        let taken = self.taken(wanted)?;
        tell_taken_over(self.rt.alloc(), self.err, &taken)?;
        self.refuse(&taken)?;
        Ok(taken)
    }

    /// Refuses what a publication takes over, unless that is asked for. What an interrupted run left is
    /// reported then.
    fn refuse(&mut self, taken: &Taken) -> Result<(), EditorFault> {
        let alloc = self.rt.alloc();
        if self.how.take_over {
            return Ok(());
        }
        match refusal_of(alloc, taken)? {
            Some(why) => {
                tell_left_over(alloc, self.err, self.how.folder, taken.left_over)?;
                Err(why)
            }
            None => Ok(()),
        }
    }

    /// Publishes texts, once the group has confirmed their ledger.
    pub(crate) fn run<W: Write>(
        &mut self,
        out: &mut W,
        wanted: &[&str],
    ) -> Result<Shown, EditorFault> {
        let (folder, patience) = (self.how.folder, self.how.patience);
        confirm(self.rt, self.err, folder, self.group, self.ledger, patience)?;
        let found = self.note_unlogged(out)?;
        let taken = self.ask_to_take_over(wanted)?;
        self.send_and_show(out, wanted, taken, found)
    }

    /// Reports what a publication of these texts would take over, if the node in use says it.
    fn see_taken<W: Write>(&mut self, out: &mut W, wanted: &[&str]) -> Result<Seen, EditorFault> {
        match self.taken(wanted) {
            Ok(taken) => {
                tell_taken_over(self.rt.alloc(), out, &taken)?;
                Ok(Seen::Taken(taken))
            }
            Err(EditorFault::Stop(why)) => Ok(Seen::Refused(EditorFault::Stop(why))),
            Err(fault) => Err(fault),
        }
    }

    /// Reports what a publication would take over, if the group confirms its ledger.
    fn look<W: Write>(&mut self, out: &mut W, wanted: &[&str]) -> Result<Seen, EditorFault> {
        if self.group.nodes().is_empty() {
            return Ok(Seen::NoNode);
        }
        match look_at(self.rt, self.err, self.how.folder, self.group, self.ledger)? {
            Look::Confirmed => self.see_taken(out, wanted),
            Look::Refused(why) => Ok(Seen::Refused(why)),
        }
    }

    /// Reports what a publication of these texts would put, remove and take over. If it would send nothing,
    /// this reports whether the group shows the folder. Nothing is sent or saved. If the publication would be
    /// refused, this fails with the same reason, after it has reported all.
    pub(crate) fn tell_plan<W: Write>(
        &mut self,
        out: &mut W,
        wanted: &[&str],
    ) -> Result<Found, EditorFault> {
        let seen = self.look(out, wanted)?;
        let (alloc, ledger) = (self.rt.alloc(), &mut *self.ledger);
        let sends = tell_plan(alloc, out, self.outcome, ledger, wanted, seen.taken())?;
        let mut shown = Shown::Whole;
        match seen {
            Seen::NoNode => {}
            Seen::Refused(why) => return Err(why),
            Seen::Taken(taken) => {
                self.refuse(&taken)?;
                if !sends {
                    let views = self.expected(wanted, &taken.left)?;
                    shown = self.shown(taken.release, &views)?;
                }
            }
        }
        Ok(Found { sends, shown })
    }
}
