use scheme_data::{Text, TextList};

/// What a script line asks for: source, output and interfaces; output and objects; program, turns and arguments.
#[derive(Drop, Debug)]
pub enum Command {
    Blank,
    Iface(Text, Text),
    Compile(Text, Text, TextList),
    Link(Text, TextList),
    Run(Text, u64, TextList),
}

/// What the program's words ask for: a line, a script by its name, or a sample.
#[derive(Drop, Debug)]
pub enum Request {
    Line(Command),
    Do(Text),
    Sample(u32, u32, u32, Text),
}
