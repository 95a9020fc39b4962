// Settings, closing and the first id.
ghost use Rattle.std.specs.Prelude.{[]};
ghost use Rattle.queue.specs.Queue.{done};
ghost use Rattle.queue.specs.Run.{set, set_name, close, initial_id};
ghost use Rattle.queue.specs.Told.{told, Kept};
ghost use Rattle.producer.specs.Settings.{Changes};
ghost use Rattle.producer.specs.Meets.{Meets};

use crate::answer::Answered;
use crate::state::ProducerState;
use plans::state::Core;
use types::error::ProducerError;
use types::settings::Setting;
use types::types::SequenceId;

impl ProducerState {
    // The planned scalars; of a refusal the state stays as it was.
    fn store_planned(&mut self, plan: Result<Core, ProducerError>) -> Result<(), ProducerError>
        ensures { Changes plan self.old self.new result }
    {
        let core = plan?;
        self.store_core(core);
        Ok(())
    }

    pub fn change(&mut self, s: Setting) -> Result<(), ProducerError>
        ensures meets { Meets [] (set s) self.old self.new (told result) }
        ensures kept { Kept (told result) self.old self.new }
    {
        let plan = self.core.decode().set(s);
        self.store_planned(plan)
    }

    // The same for a state by value.
    pub fn set(mut self, s: Setting) -> Answered<()>
        ensures meets { Meets [] (set s) self result.state (told result.answer) }
        ensures kept { Kept (told result.answer) self result.state }
    {
        Answered {
            answer: self.change(s),
            state: self,
        }
    }

    pub fn rename(&mut self, name: &[u8]) -> Result<(), ProducerError>
        ensures meets { Meets [] (set_name name.now) self.old self.new (told result) }
        ensures kept { Kept (told result) self.old self.new }
    {
        let plan = self.core.decode().set_name(name);
        self.store_planned(plan)
    }

    // The same for a state by value.
    pub fn set_name(mut self, name: &[u8]) -> Answered<()>
        ensures meets { Meets [] (set_name name.now) self result.state (told result.answer) }
        ensures kept { Kept (told result.answer) self result.state }
    {
        Answered {
            answer: self.rename(name),
            state: self,
        }
    }

    // For good: no call opens it again.
    pub fn shut(&mut self)
        ensures { Meets [] close self.old self.new (done tt) }
    {
        let core = self.core.decode().close();
        self.store_core(core);
    }

    // The same for a state by value.
    pub fn close(mut self) -> ProducerState
        ensures { Meets [] close self result (done tt) }
    {
        self.shut();
        self
    }

    pub fn start_at(&mut self, next: SequenceId)
        ensures { Meets [] (initial_id next.0) self.old self.new (done tt) }
    {
        let core = self.core.decode().set_initial_sequence_id(next);
        self.store_core(core);
    }

    // The same for a state by value.
    pub fn set_initial_sequence_id(mut self, next: SequenceId) -> ProducerState
        ensures { Meets [] (initial_id next.0) self result (done tt) }
    {
        self.start_at(next);
        self
    }
}
