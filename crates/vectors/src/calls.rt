// The calls of the cases.
use crate::case::{Call, Case, NoCall};
use crate::lengths::length_at;
use blur::length::LineLengthConfig;
use deblur::{
    DirectionalUnsharpConfig, VanCittertConfig, directional_unsharp_line_into,
    van_cittert_line_into,
};
use image::{Gray8View, Gray8ViewMut, Refusal};
use raster::border::LineBorderMode;
use raster::direction::RasterDirection4;
use resize::{box_downscale_half, halve};
use sharpen::fixed_binomial_unsharp_into;
use tensor::direction::estimate_line_direction;

// What a call found, beside the pixels.
#[derive(Clone, Copy, Debug, PartialEq)]
pub enum Found {
    Pixels,
    Direction(RasterDirection4),
    Length(Option<f64>),
}

// Why a case has no answer.
#[derive(Clone, Copy, Debug, PartialEq, Eq)]
pub enum Fault {
    NoCall,
    Refused(Refusal),
}

impl Found {
    // The direction's number; for a length 1 where there is one.
    fn number(self) -> u8 {
        match self {
            Found::Direction(direction) => direction.index(),
            Found::Length(Some(_)) => 1,
            Found::Pixels | Found::Length(None) => 0,
        }
    }

    fn estimate(self) -> f64 {
        match self {
            Found::Length(Some(estimate)) => estimate,
            _ => 0.0,
        }
    }
}

impl Fault {
    // The number as a case has it; that of a call that does not exist is in no case.
    fn number(self) -> u8 {
        match self {
            Fault::NoCall => 255,
            Fault::Refused(Refusal::InvalidStrength) => Refusal::InvalidLine.number(),
            Fault::Refused(refusal) => refusal.number(),
        }
    }
}

impl From<NoCall> for Fault {
    fn from(_: NoCall) -> Fault {
        Fault::NoCall
    }
}

impl From<Refusal> for Fault {
    fn from(refusal: Refusal) -> Fault {
        Fault::Refused(refusal)
    }
}

// No case of the list has an angle without a direction.
fn snap(c: Case) -> Result<Found, Refusal> {
    let direction = RasterDirection4::from_angle(c.angle).ok_or(Refusal::InvalidLine)?;
    Ok(Found::Direction(direction))
}

fn direct<'a>(src: Gray8View<'a>) -> Result<Found, Refusal> {
    Ok(Found::Direction(estimate_line_direction(src)?.direction))
}

fn measure<'a>(c: Case, src: Gray8View<'a>) -> Result<Found, Refusal> {
    let config = LineLengthConfig {
        minimum_transitions: c.count,
        minimum_amplitude: c.amplitude,
    };
    Ok(Found::Length(length_at(src, c.angle, config)?))
}

// The longest line of the list has 16 pixels.
fn restore<'a, 'b>(c: Case, src: Gray8View<'a>, dst: Gray8ViewMut<'b>) -> Result<Found, Refusal> {
    let mut scratch = [0i32; 48];
    let config = VanCittertConfig {
        theta_radians: c.angle,
        blur_length: c.blur_length,
        iterations: c.count,
        relaxation: c.factor,
        border: LineBorderMode::from_code(c.border, c.value),
    };
    let done = van_cittert_line_into(src, dst, config, &mut scratch)?;
    Ok(Found::Direction(done.raster_direction))
}

// Of other settings than `restore`: a trait over both would be as long.
fn unsharp<'a, 'b>(c: Case, src: Gray8View<'a>, dst: Gray8ViewMut<'b>) -> Result<Found, Refusal> {
    let mut scratch = [0i32; 48];
    let config = DirectionalUnsharpConfig {
        theta_radians: c.angle,
        blur_length: c.blur_length,
        gain: c.factor,
        border: LineBorderMode::from_code(c.border, c.value),
    };
    let done = directional_unsharp_line_into(src, dst, config, &mut scratch)?;
    Ok(Found::Direction(done.raster_direction))
}

fn binomial<'a, 'b>(src: Gray8View<'a>, dst: Gray8ViewMut<'b>) -> Result<Found, Refusal> {
    let mut scratch = [0u16; 256];
    fixed_binomial_unsharp_into(src, dst, &mut scratch)?;
    Ok(Found::Pixels)
}

fn half<'a, 'b>(src: Gray8View<'a>, dst: Gray8ViewMut<'b>) -> Result<Found, Refusal> {
    box_downscale_half(src, dst)?;
    Ok(Found::Pixels)
}

fn halvings<'a, 'b>(c: Case, src: Gray8View<'a>, dst: Gray8ViewMut<'b>) -> Result<Found, Refusal> {
    let mut scratch = [0u8; 256];
    halve(src, dst, c.count, &mut scratch)?;
    Ok(Found::Pixels)
}

// The case's call.
pub(crate) fn call(c: Case, source: &[u8], destination: &mut [u8]) -> Result<Found, Fault> {
    let src = Gray8View::new(source, c.source.width, c.source.height, c.source.stride);
    let lies = c.destination;
    let dst = Gray8ViewMut::new(destination, lies.width, lies.height, lies.stride);
    let found = match c.call? {
        Call::FromAngle => snap(c)?,
        Call::Direction => direct(src)?,
        Call::Length => measure(c, src)?,
        Call::Restoration => restore(c, src, dst)?,
        Call::Unsharp => unsharp(c, src, dst)?,
        Call::Binomial => binomial(src, dst)?,
        Call::Half => half(src, dst)?,
        Call::Halvings => halvings(c, src, dst)?,
    };
    Ok(found)
}

// Whether an answer is the case's. A length is never 0 and never a NaN, so equal doubles have equal bits.
pub(crate) fn agrees(answer: Result<Found, Fault>, c: Case) -> bool {
    match answer {
        Ok(found) => {
            (c.number == 0) & (c.found == found.number()) & (c.estimate == found.estimate())
        }
        Err(fault) => (c.number == fault.number()) & (c.found == 0) & (c.estimate == 0.0),
    }
}
