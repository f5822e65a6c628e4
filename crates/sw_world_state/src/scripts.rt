//! Steps of links' scripts.
ghost use Rattle.std.specs.Prelude.{◌≡◌, ◌<◌, length, OnOk};
ghost use Rattle.sw_world_state.specs.Feeding.{KeepsLeft, Scripts, ScriptsBy};

use crate::state::State;
use sw_base::{OutOfMemory, Session};
use sw_link::LinkStep;
use sw_world_front::Front;

impl<H, T> State<H, T> {
    ghost use Rattle.std.specs.Prelude.{Some};

    /// A step is added to the script of the link of this number, if there is one: it goes to the link itself where a reactor has it, and
    /// else waits with the link.
    pub fn script(&mut self, link: u32, step: LinkStep) -> Result<(), OutOfMemory>
        requires slots { 0 < self.old.max_conn }
        requires reactors { 0 < length self.old.reactors }
        ensures { OnOk result (Scripts self.old link step self.new) }
    {
        match self.front.session_of(link) {
            None => self.front.keep(link, step),
            Some(session) => self.give(session, link, step),
        }
    }

    fn give(&mut self, session: Session, link: u32, step: LinkStep) -> Result<(), OutOfMemory>
        requires slots { 0 < self.old.max_conn }
        requires reactors { 0 < length self.old.reactors }
        ensures { OnOk result (ScriptsBy (Some session) self.old link step self.new) }
    {
        let n = (session.number() % self.max_conn) as usize % self.reactors.all().len();
        let left = self.reactors.add(n, session, step)?;
        keep_left(&mut self.front, link, left)
    }
}

fn keep_left(front: &mut Front, link: u32, left: Option<LinkStep>) -> Result<(), OutOfMemory>
    ensures { OnOk result (KeepsLeft link left front.old front.new) }
{
    match left {
        None => Ok(()),
        Some(step) => front.keep(link, step),
    }
}
