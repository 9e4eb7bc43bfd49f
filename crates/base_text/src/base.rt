//! What a base holds.
use base_values::StoredValue;
use fx_lists::{List, Text};

/// A module.
#[derive(Drop)]
pub struct BaseModule {
    pub name: Text,
    /// The text that is this module, alone.
    pub text: Text,
}

/// A result that is kept for a module; its kind is that of the value.
#[derive(Drop)]
pub struct StoredResult {
    /// The name of the module.
    pub name: Text,
    pub value: StoredValue,
}

/// Modules, and the results that are kept for them.
#[derive(Drop)]
pub struct Base {
    pub modules: List<BaseModule>,
    pub results: List<StoredResult>,
}
