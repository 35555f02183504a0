// A switch file as far as it was read, and how its lines lead it on.

ghost use Rattle.std.specs.Prelude.{◌≡◌};
ghost use Rattle.line_text.specs.Reading.{Gives, Takes};
ghost use Rattle.line_text.specs.Texts.{texts};
ghost use Rattle.switch_text.specs.Places as places;
ghost use Rattle.switch_text.specs.Reading as spec;

use crate::name::{axis_at, is_used};
use crate::switch::{MOST_SWITCHES, Switch, is_switch};
use line_text::{LineFault, LineReader, broken_unless, number_of, required, says};
use motion_history::Config;
use plc_types::{Name, is_name};
use std::marker::Model;

/// The first line with words doesn't give the format and its version.
const NO_VERSION: u8 = 2;

/// The first word is unknown, or there are too few or too many words.
const WRONG_FORM: u8 = 3;

/// A word isn't a name, is the name of another switch, or names no axis.
const WRONG_NAME: u8 = 4;

/// A word isn't a number.
const NO_NUMBER: u8 = 5;

/// The positions or the hysteresis are outside their ranges.
const OUT_OF_RANGE: u8 = 6;

/// There are too many switches, or none by the end.
pub const WRONG_COUNT: u8 = 7;

/// A switch file as far as it was read, for the axes of a machine. Contracts see it as a `SoFar`.
#[derive(Drop)]
pub struct SwitchReader<'a> {
    pub(crate) config: &'a Config,
    pub(crate) begun: bool,
    pub(crate) switches: Vec<Switch>,
}

impl<'a> Model for SwitchReader<'a> {
    ghost use Rattle.switch_text.specs.SoFar.{SoFar};

    ghost Value = { SoFar };

    ghost view = { λ r. record {
      setup = r.config.now;
      begun = r.begun;
      switches = r.switches.items;
    } };
}

impl<'a> LineReader for SwitchReader<'a> {
    ghost use Rattle.switch_text.specs.Reading.{meaning};

    ghost meaning = { meaning };

    #[tactic(auto, unfolding(crate::specs::Reading::meaning))]
    fn read_line(&mut self, words: &[&[u8]]) -> Result<(), LineFault> {
        if self.begun {
            self.read_later(words)
        } else {
            self.read_version(words)
        }
    }
}

// Whether the words give the version.
#[tactic(auto, unfolding(crate::specs::Reading::is_version))]
fn is_version(words: &[&[u8]]) -> bool
    ensures { result ≡ spec.is_version (texts words.now) }
{
    let [word, number] = words else {
        return false;
    };
    says(word, b"motion-switches") && says(number, b"1")
}

impl<'a> SwitchReader<'a> {
    // Takes the first line.
    #[tactic(auto, unfolding(crate::specs::Reading::version_meaning))]
    fn read_version(&mut self, words: &[&[u8]]) -> Result<(), LineFault>
        ensures { Takes (spec.version_meaning self.old (texts words.now)) self.new result }
    {
        broken_unless(is_version(words), NO_VERSION)?;
        self.begun = true;
        Ok(())
    }

    // Takes a line after the first.
    #[tactic(auto, unfolding(crate::specs::Reading::later_meaning))]
    fn read_later(&mut self, words: &[&[u8]]) -> Result<(), LineFault>
        ensures { Takes (spec.later_meaning self.old (texts words.now)) self.new result }
    {
        let switch = self.switch_of(words)?;
        broken_unless(self.switches.len() < MOST_SWITCHES, WRONG_COUNT)?;
        let Ok(()) = self.switches.push(switch) else {
            return Err(LineFault::OutOfMemory);
        };
        Ok(())
    }

    // The switch of a line.
    #[tactic(auto, unfolding(crate::specs::Reading::switch_meaning))]
    fn switch_of(&self, words: &[&[u8]]) -> Result<Switch, LineFault>
        ensures { Gives (λ s. s) (spec.switch_meaning self.now (texts words.now)) result }
    {
        match words {
            [first, name, axis, on, off, hyst] if says(first, b"switch") => {
                self.switch_at(name, axis, places_of(on, off, hyst))
            }
            _ => Err(LineFault::Rule(WRONG_FORM)),
        }
    }

    // The switch of this name on an axis, if its places are numbers.
    #[tactic(auto, unfolding(crate::specs::Reading::switch_at))]
    fn switch_at(
        &self,
        name: &[u8],
        axis: &[u8],
        places: Option<Places>,
    ) -> Result<Switch, LineFault>
        ensures { Gives (λ s. s) (spec.switch_at self.now name.now axis.now places) result }
    {
        let name = self.free_name(name)?;
        let axis = required(axis_at(self.config, axis), WRONG_NAME)?;
        let places = required(places, NO_NUMBER)?;
        switched(name, axis, &places)
    }

    // The name that a switch may have.
    #[tactic(auto, unfolding(crate::specs::Reading::free_name))]
    fn free_name(&self, name: &[u8]) -> Result<Name, LineFault>
        ensures { Gives (λ n. n) (spec.free_name self.now name.now) result }
    {
        if !is_name(name) || is_used(self.switches.as_slice(), name) {
            return Err(LineFault::Rule(WRONG_NAME));
        }
        Ok(Name::new(name))
    }
}

// The numbers of a switch: its positions and its hysteresis.
#[derive(Clone, Copy)]
pub struct Places {
    on: i64,
    off: i64,
    hyst: i64,
}

// The numbers that three words are.
#[tactic(auto, unfolding(crate::specs::Places::places_of))]
fn places_of(on: &[u8], off: &[u8], hyst: &[u8]) -> Option<Places>
    ensures { result ≡ places.places_of on.now off.now hyst.now }
{
    Some(Places {
        on: number_of(on)?,
        off: number_of(off)?,
        hyst: number_of(hyst)?,
    })
}

// The switch of this name on an axis, at these places.
#[tactic(auto, unfolding(crate::specs::Reading::switched))]
fn switched(name: Name, axis: u8, places: &Places) -> Result<Switch, LineFault>
    ensures { Gives (λ s. s) (spec.switched name axis places.now) result }
{
    let switch = Switch {
        name,
        axis,
        on: places.on,
        off: places.off,
        hyst: places.hyst,
    };
    broken_unless(is_switch(&switch), OUT_OF_RANGE)?;
    Ok(switch)
}
