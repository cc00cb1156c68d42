//! What the crate of requirements needs of URLs. It is not part of the public interface.

pub use crate::meaning::Target;
