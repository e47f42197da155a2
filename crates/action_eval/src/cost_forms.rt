// Costs as functions of the costs of the inputs.
mod form;
mod laws;
mod making;
mod places;
mod step;

pub use form::CostForm;
pub use laws::cost_laws;
pub use making::cost_form;
pub use step::IStep;
