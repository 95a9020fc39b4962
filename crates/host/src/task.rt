// An operation that is carried out, and its arguments.
use plans::send::Sending;
use script::operation::Call;
use script::read::{Place, lent_of};
use types::memory_limit::MemoryReservation;
use types::settings::Setting;

#[derive(Clone, Copy)]
pub(crate) struct Task<'a> {
    pub call: Call,
    // Behind the code.
    pub arguments: Place<'a>,
    pub store: &'a [u8],
}

impl<'a> Task<'a> {
    // What stands behind a send's message and, of one that reserves, the reservation.
    fn behind_message(self) -> Place<'a> {
        self.arguments.behind(if self.call == Call::QueueSendReserved {
            172
        } else {
            164
        })
    }

    pub fn sending(self) -> Sending {
        let more = self.behind_message();
        Sending {
            message: self.arguments.get(),
            reservation: MemoryReservation {
                bytes: if self.call == Call::QueueSendReserved {
                    self.arguments.behind(164).get()
                } else {
                    0
                },
            },
            uuid: more.get(),
            publish_time: more.behind(16).get(),
            now: more.behind(24).get(),
        }
    }

    // What a send is lent of the store.
    pub fn lent_to_send(self) -> &'a [u8] {
        lent_of(self.store, self.behind_message().behind(32).get())
    }

    // What a take is lent of the store.
    pub fn lent_to_take(self) -> &'a [u8] {
        lent_of(self.store, self.arguments.behind(8).get())
    }

    pub fn setting(self) -> Setting {
        let value = self.arguments;
        match self.call {
            Call::SetMaxMessageSize => Setting::MaxMessageSize(value.get()),
            Call::SetMaxBatchSizeBytes => Setting::MaxBatchSizeBytes(value.get()),
            Call::SetMaxMessagesInBatch => Setting::MaxMessagesInBatch(value.get()),
            Call::SetMetadataReservation => Setting::MetadataReservation(value.get()),
            Call::SetBatchingEnabled => Setting::BatchingEnabled(value.get()),
            Call::SetChunkingEnabled => Setting::ChunkingEnabled(value.get()),
            Call::SetSendTimeout => Setting::SendTimeout(value.get()),
            Call::SetBatchingMaxPublishDelay => Setting::BatchingMaxPublishDelay(value.get()),
            _ => Setting::BrokerReady(value.get()),
        }
    }

    // The bytes of a name, behind their length.
    pub fn name(self) -> &'a [u8] {
        let len = self.arguments.get::<u32>() as usize;
        self.arguments.behind(4).bytes(len)
    }
}
