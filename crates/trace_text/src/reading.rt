// Reading a trace: its rules, its records one after another, and what each says.

pub mod events;
pub mod follow;
pub mod head;
pub mod held;
pub mod inputs;
pub mod item;
pub mod item_reader;
pub mod kind;
pub mod list_item;
pub mod name;
pub mod places;
pub mod positions;
pub mod read;
pub mod reader;
pub mod row;
pub mod rule;
