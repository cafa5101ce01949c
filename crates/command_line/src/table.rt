/// The commands, one a line. A command that is added gets its line here.
pub const COMMANDS: &str = "compile PROFILE PID PAGE SCRIPT FONT OUT\n\
     list PID STREAM OUT\n\
     dump PROFILE PID PAGE BANDS STREAM OUT TICK...\n\
     check PROFILE ORIGIN PID PAGE STREAM OUT\n\
     expect SCRIPT FONT OUT TICK...\n\
     gen N PROFILE OUT";
