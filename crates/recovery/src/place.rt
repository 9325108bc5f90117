// A place among the messages of a session, and the walk on from it.
ghost use Rattle.std.specs.Prelude.{◌≡◌, ◌≤◌, IfSome};
ghost use Rattle.std.specs.Option.{option_map};
ghost use Rattle.wire.specs.Numbers.{most32};
ghost use Rattle.recovery.specs.Places.{held_from, message_of, Agrees};

use session::Carried;

// A number, and the messages from that number on.
#[derive(Clone, Copy)]
pub(crate) struct Place<'a> {
    pub(crate) number: u32,
    pub(crate) messages: Carried<'a>,
}

impl<'a> Place<'a> {
    // The message with a number, and the place behind it.
    pub(crate) fn walk(mut self, number: u32) -> Option<(&'a [u8], Place<'a>)>
        requires { number ≤ most32 }
        ensures value { option_map message_of result ≡ held_from self.entry number }
        ensures agrees { IfSome result (λ f. Agrees self.entry f.1) }
    {
        let others = number.checked_sub(self.number)?;
        let message = self.messages.nth(others as usize)?;
        self.number = number + 1;
        Some((message, self))
    }
}
