//! Laws of a multiplex.

ghost use Rattle.std.specs.Prelude.{ℕ, List};
ghost use Rattle.service_mux.specs.MuxWords.{AreServices};
ghost use Rattle.service_mux.specs.ServicesAgain.{GivesServicesAgain};
ghost use Rattle.service_mux.specs.declared.mux_words.ServicePair.{ServicePair};

/// A multiplex of two streams gives each service again: what `take` takes out of it are the packets
/// of the service's PID in its stream.
pub fn services_come_again()
    ensures { (pair : ServicePair) (first second : List (List ℕ)) → AreServices pair
        → GivesServicesAgain pair first second }
{}
