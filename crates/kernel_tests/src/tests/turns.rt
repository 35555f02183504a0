// Turns on one kernel, in one thread and in two.

mod machine;
mod numbers;
mod threads;
