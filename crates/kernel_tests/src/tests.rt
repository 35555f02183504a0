// What no clause says of turns, rings, threads, standbys and the host, by subject: each test says in
// its name what it shows.

mod hosts;
mod rings;
mod standbys;
mod threads;
mod turns;
mod uses;
