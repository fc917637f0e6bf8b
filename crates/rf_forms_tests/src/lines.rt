/// Strings, symbols, comments and here strings of several lines, which no flat list holds.
pub const ROWS: &str = r##"(f #<<E⏎ab⏎E⏎)⇒L⇒(f⏎ #<<E⏎ab⏎E⏎ )⏎
(f #<<E⏎ab⏎E⏎)⇒RL⇒(f #<<E⏎ab⏎E⏎   )⏎
(f #<<E⏎ab⏎E⏎)⇒RR⇒unfit
(f #<<E⏎E⏎ g)⇒RL⇒(f #<<E⏎E⏎   g)⏎
(#<<E⏎ab⏎E⏎ g h)⇒L⇒(#<<E⏎ab⏎E⏎ g⏎ h)⏎
(#<<E⏎ab⏎E⏎ g h)⇒RL⇒unfit
(f "x⏎ y" z)⇒L⇒(f⏎ "x⏎ y"⏎ z)⏎
(f "x⏎ y" z)⇒RL⇒(f "x⏎ y"⏎   z)⏎
(f "x⏎ y" z)⇒RR⇒unfit
(f "x⏎ y" z)⇒R⇒unfit
(f "x␍⏎y" z)⇒RL⇒(f "x␍⏎y"⏎   z)⏎
("x⏎ y" a b)⇒L⇒("x⏎ y"⏎ a⏎ b)⏎
(f |a⏎b| c)⇒RL⇒(f |a⏎b|⏎   c)⏎
(f |a⏎b| c)⇒RR⇒unfit
(f #|a⏎b|# c)⇒RL⇒(f #|a⏎b|#⏎   c)⏎
(f #|a⏎b|# c)⇒RR⇒unfit
(f (g "x⏎y") h)⇒LL⇒(f⏎ (g⏎  "x⏎y")⏎ h)⏎
(f (g "x⏎y") h)⇒LRL⇒(f⏎ (g "x⏎y")⏎ h)⏎
(f (g "x⏎y") h)⇒RLRL⇒(f (g "x⏎y")⏎   h)⏎
(f (g "x⏎y") h)⇒LRR⇒unfit
(f (g "x⏎y") h)⇒RRL⇒unfit
("x⏎⏎y")⇒-⇒("x⏎⏎y")⏎"##;
