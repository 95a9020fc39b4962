// How many messages one stands for.
ghost use Rattle.std.specs.Prelude.{◌≡◌, pos};
ghost use Rattle.queue.specs.Batch.{at_least_one};

// As a command bears it: max(num_messages, 1).
pub fn at_least_one(num_messages: i32) -> i32
    ensures { result ≡ pos (at_least_one num_messages) }
{
    num_messages.max(1)
}

// The same as a count.
pub fn message_count(num_messages: i32) -> usize
    ensures { result ≡ at_least_one num_messages }
{
    at_least_one(num_messages) as usize
}
