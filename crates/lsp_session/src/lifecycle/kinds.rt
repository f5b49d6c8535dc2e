// The notifications that the lifecycle waits for (LSP 3.17, "Server lifecycle").
ghost use Rattle.std.specs.Prelude.{◌≡◌};
ghost use Rattle.lsp_message.specs.Methods.{is_exit as exit_spec, is_initialized as initialized_spec};
ghost use Rattle.lsp_message.specs.View.{message_view};

use lsp_message::Message;

/// Returns whether the message is the notification `exit`.
pub fn is_exit(message: &Message) -> bool
    ensures { result ≡ exit_spec (message_view message.now) }
{
    match message {
        Message::Notification(notification) => notification.method.as_str() == "exit",
        Message::Request(_) | Message::Response(_) => false,
    }
}

/// Returns whether the message is the notification `initialized`.
pub(crate) fn is_initialized(message: &Message) -> bool
    ensures { result ≡ initialized_spec (message_view message.now) }
{
    match message {
        Message::Notification(notification) => notification.method.as_str() == "initialized",
        Message::Request(_) | Message::Response(_) => false,
    }
}
