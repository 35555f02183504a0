// What no clause says of whole runs of the program: each test says in its name what it shows.

mod programs;
