//! Requests: what the words of the command line ask for.
#![tactic(auto)]

// The parts of a request: names, numbers and settings.
mod parts;
mod settings;

// The requests.
mod requests;

pub use requests::{
    CoverRequest, PlayRequest, Request, RunRequest, SimplifyRequest, StepRequest, TransferRequest,
    TranslationRequest, request_in,
};
pub use settings::{DrawSource, FIRST_SEED, MOST_STEPS, Pause, USUAL_STEPS};
