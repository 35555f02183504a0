// A standby: the second kernel has the whole history once the first is given up, also where it
// takes its events in a thread of its own; an event that does not fit is a stranger and changes
// nothing.

mod machine;
mod strangers;
mod taking;
