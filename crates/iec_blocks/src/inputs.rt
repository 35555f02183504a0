// The inputs and outputs of the standard function blocks, with their names and types.

ghost use Rattle.std.specs.Prelude.{◌≡◌, [], ◌∷◌, codes};
ghost use Rattle.std.specs.Map.{lookup};
ghost use Rattle.std.specs.Str.{str_eq_ignore_ascii_case};
ghost use Rattle.iec_tree.specs.declared.standard.Standard.TheVariants as block;
ghost use Rattle.iec_blocks.specs.Inputs as spec;
ghost use Rattle.iec_blocks.specs.Inputs.{inputs_of};
ghost use Rattle.iec_blocks.specs.declared.inputs.Output.TheVariants.{Flag, Value};

use iec_tree::{Elementary, Standard};

/// The inputs of the standard function blocks, by what they do.
#[derive(Clone, Copy, Debug, PartialEq, Eq)]
pub enum Input {
    /// `IN`, `CLK`, `CU`, `S1` or `S`.
    Signal,
    /// `RESET`, `R` or `R1`.
    Reset,
    /// `PT` or `PV`.
    Preset,
}

/// Their outputs.
#[derive(Clone, Copy, Debug, PartialEq, Eq)]
pub enum Output {
    /// `Q` or `Q1`.
    Flag,
    /// `ET` or `CV`.
    Value,
}

/// The input of a block that has this name, in any case of letters.
#[tactic(auto, unfolding(crate::specs::Inputs::input_named, crate::specs::Inputs::inputs_of))]
pub fn input_named(standard: Standard, name: &[u8]) -> Option<Input>
    ensures { result ≡ spec.input_named standard name.now }
{
    match standard {
        Standard::Ton | Standard::Tof | Standard::Tp => timer_input(name),
        Standard::RTrig | Standard::FTrig => trigger_input(name),
        Standard::Ctu => counter_input(name),
        Standard::Sr => set_dominant_input(name),
        Standard::Rs => reset_dominant_input(name),
    }
}

// The input of a timer.
#[tactic(auto, unfolding(crate::specs::Inputs::inputs_of))]
fn timer_input(name: &[u8]) -> Option<Input>
    ensures { result ≡ lookup (str_eq_ignore_ascii_case name.now) (inputs_of block.Ton) }
{
    if name.eq_ignore_ascii_case(b"IN") {
        Some(Input::Signal)
    } else if name.eq_ignore_ascii_case(b"PT") {
        Some(Input::Preset)
    } else {
        None
    }
}

// The input of a trigger.
#[tactic(auto, unfolding(crate::specs::Inputs::inputs_of))]
fn trigger_input(name: &[u8]) -> Option<Input>
    ensures { result ≡ lookup (str_eq_ignore_ascii_case name.now) (inputs_of block.RTrig) }
{
    if name.eq_ignore_ascii_case(b"CLK") {
        Some(Input::Signal)
    } else {
        None
    }
}

// The input of a counter.
#[tactic(auto, unfolding(crate::specs::Inputs::inputs_of))]
fn counter_input(name: &[u8]) -> Option<Input>
    ensures { result ≡ lookup (str_eq_ignore_ascii_case name.now) (inputs_of block.Ctu) }
{
    if name.eq_ignore_ascii_case(b"CU") {
        Some(Input::Signal)
    } else if name.eq_ignore_ascii_case(b"RESET") || name.eq_ignore_ascii_case(b"R") {
        Some(Input::Reset)
    } else if name.eq_ignore_ascii_case(b"PV") {
        Some(Input::Preset)
    } else {
        None
    }
}

// The input of an `SR`.
#[tactic(auto, unfolding(crate::specs::Inputs::inputs_of))]
fn set_dominant_input(name: &[u8]) -> Option<Input>
    ensures { result ≡ lookup (str_eq_ignore_ascii_case name.now) (inputs_of block.Sr) }
{
    if name.eq_ignore_ascii_case(b"S1") || name.eq_ignore_ascii_case(b"SET1") {
        Some(Input::Signal)
    } else if name.eq_ignore_ascii_case(b"R") || name.eq_ignore_ascii_case(b"RESET") {
        Some(Input::Reset)
    } else {
        None
    }
}

// The input of an `RS`.
#[tactic(auto, unfolding(crate::specs::Inputs::inputs_of))]
fn reset_dominant_input(name: &[u8]) -> Option<Input>
    ensures { result ≡ lookup (str_eq_ignore_ascii_case name.now) (inputs_of block.Rs) }
{
    if name.eq_ignore_ascii_case(b"S") || name.eq_ignore_ascii_case(b"SET") {
        Some(Input::Signal)
    } else if name.eq_ignore_ascii_case(b"R1") || name.eq_ignore_ascii_case(b"RESET1") {
        Some(Input::Reset)
    } else {
        None
    }
}

/// The output of a block that has this name, in any case of letters.
#[tactic(auto, unfolding(crate::specs::Inputs::output_named, crate::specs::Inputs::outputs_of))]
pub fn output_named(standard: Standard, name: &[u8]) -> Option<Output>
    ensures { result ≡ spec.output_named standard name.now }
{
    match standard {
        Standard::Ton | Standard::Tof | Standard::Tp => either_output(name, b"ET"),
        Standard::RTrig | Standard::FTrig => flag_output(name, b"Q"),
        Standard::Ctu => either_output(name, b"CV"),
        Standard::Sr | Standard::Rs => flag_output(name, b"Q1"),
    }
}

// The output of a block that has `Q` and another one.
fn either_output(name: &[u8], value: &[u8]) -> Option<Output>
    ensures { result ≡ lookup (str_eq_ignore_ascii_case name.now)
        ((codes "Q", Flag) ∷ (value.now, Value) ∷ []) }
{
    if name.eq_ignore_ascii_case(b"Q") {
        Some(Output::Flag)
    } else if name.eq_ignore_ascii_case(value) {
        Some(Output::Value)
    } else {
        None
    }
}

// The output of a block that has one.
fn flag_output(name: &[u8], flag: &[u8]) -> Option<Output>
    ensures { result ≡ lookup (str_eq_ignore_ascii_case name.now) ((flag.now, Flag) ∷ []) }
{
    if name.eq_ignore_ascii_case(flag) {
        Some(Output::Flag)
    } else {
        None
    }
}

/// The type of an input of a block.
#[tactic(auto, unfolding(crate::specs::Inputs::input_type))]
pub fn input_type(standard: Standard, input: Input) -> Elementary
    ensures { result ≡ spec.input_type standard input }
{
    match input {
        Input::Signal | Input::Reset => Elementary::Bool,
        Input::Preset => number_type(standard),
    }
}

/// The type of an output of a block.
#[tactic(auto, unfolding(crate::specs::Inputs::output_type))]
pub fn output_type(standard: Standard, output: Output) -> Elementary
    ensures { result ≡ spec.output_type standard output }
{
    match output {
        Output::Flag => Elementary::Bool,
        Output::Value => number_type(standard),
    }
}

// The type of what a block counts or measures.
#[tactic(auto, unfolding(crate::specs::Inputs::number_type))]
fn number_type(standard: Standard) -> Elementary
    ensures { result ≡ spec.number_type standard }
{
    match standard {
        Standard::Ctu => Elementary::Int,
        _ => Elementary::Time,
    }
}
