use codes::Refusal;
use drawing::{Area, Point};
use pencil::Pencil;
use playback::Answer;
use player::StepFault;

// One call: a step of the run, or a direct drawing with a pencil of its own.
#[derive(Drop)]
pub enum Call<I> {
    Step,
    Line {
        pencil: Pencil,
        from: Point,
        to: Point,
    },
    Paint {
        pencil: Pencil,
        area: Area,
        code: u8,
        ink: I,
    },
    Copy {
        pencil: Pencil,
        area: Area,
        source: Point,
        code: u8,
        ink: I,
    },
}

// A call over a meter, or the meter's clearing.
#[derive(Drop)]
pub enum MeterCall<I> {
    Call(Call<I>),
    Clear,
}

// What a call answers.
#[derive(Clone, Copy)]
pub enum Reply {
    Step(Result<Answer, StepFault>),
    Drawing(Result<(), Refusal>),
    Cleared,
}
