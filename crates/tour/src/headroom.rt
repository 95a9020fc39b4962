// A carrier whose frames need room beside the payload (document 02, K6).
use crate::story;
use crate::tour::Tour;
use std::io;
use types::settings::Setting;

// Less than a quarter of the message limit, so that chunks are smaller by as much.
pub const HEADROOM: usize = 12;

impl<P: Print> Tour<'_, P> {
    // The message that waits keeps the chunks that it was cut into.
    pub fn make_headroom(&mut self) -> io::Result<()> {
        self.state = self.state.set(Setting::MetadataReservation(HEADROOM)).state;
        print!(self.out; "the rate table")?;
        self.send(story::rate_table())?;
        self.take_all()
    }
}
