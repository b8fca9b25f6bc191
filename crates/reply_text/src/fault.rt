use json_text::JsonFault;

/// Why a line was refused without a turn of the machine.
#[derive(Clone, Debug, Drop, PartialEq, Eq)]
pub enum ShellFault {
    /// It is no command: its first token that doesn't fit stands at that byte, or it ends there too early.
    Syntax(u32),
    /// It has more than 4,096 bytes.
    LineTooLong,
    /// It ends a text of more than 2,097,152 bytes, and no line of it was too long before.
    TextTooLong,
    /// It ends a JSON text that has that fault.
    Json(JsonFault),
}
