//! The problems of a service error by their numbers (X.511, section 12.8).

/// unavailable.
pub const UNAVAILABLE: u8 = 2;

/// unableToProceed.
pub const UNABLE_TO_PROCEED: u8 = 5;

/// invalidReference.
pub const INVALID_REFERENCE: u8 = 6;

/// administrativeLimitExceeded.
pub const ADMINISTRATIVE_LIMIT_EXCEEDED: u8 = 8;

/// loopDetected.
pub const LOOP_DETECTED: u8 = 9;
