// The files of a run.

/// The names of the files of a run: the configuration of a machine, and the program of its tasks.
#[derive(Clone, Copy, Debug)]
pub struct RunNames<'a> {
    pub config: &'a str,
    pub program: &'a str,
}
