// What a model without fault stands for.
mod attributes;
mod forms;
mod line_forms;
mod topics;
mod values;

pub use topics::model;
