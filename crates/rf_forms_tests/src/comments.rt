/// Comments behind, above and between what stands in lists, and blank lines.
pub const ROWS: &str = r##"(a ; c⏎ b)⇒L⇒(a ; c⏎ b)⏎
(a ; c⏎ b)⇒RL⇒(a ; c⏎ b)⏎
(a ; c⏎ b)⇒RR⇒unfit
(a ; c⏎ b)⇒R⇒unfit
(a ; c⏎ b d)⇒RL⇒(a ; c⏎ b⏎ d)⏎
(f a ; c⏎ b)⇒L⇒(f⏎ a ; c⏎ b)⏎
(f a ; c⏎ b)⇒RL⇒(f a ; c⏎   b)⏎
(f a ; c␍⏎ b)⇒RL⇒(f a ; c⏎   b)⏎
(f a ; c⏎)⇒L⇒(f⏎ a ; c⏎ )⏎
(f a ; c⏎)⇒RL⇒(f a ; c⏎   )⏎
(f a ; c⏎)⇒RR⇒unfit
(a ; c⏎)⇒-⇒(a ; c⏎ )⏎
(a ; c⏎)⇒L⇒unfit
(f⏎; c⏎a b)⇒L⇒(f⏎ ; c⏎ a⏎ b)⏎
(f⏎; c⏎a b)⇒RL⇒(f⏎ ; c⏎ a⏎ b)⏎
(f a⏎; c⏎b)⇒RL⇒(f a⏎   ; c⏎   b)⏎
(f a⏎; c⏎b)⇒RR⇒unfit
(f a⏎; c⏎)⇒L⇒(f⏎ a⏎ ; c⏎ )⏎
(f a⏎; c⏎)⇒RL⇒(f a⏎   ; c⏎   )⏎
(f #|x|# a b)⇒L⇒(f⏎ #|x|#⏎ a⏎ b)⏎
(f #|x|# a b)⇒RL⇒(f #|x|#⏎   a⏎   b)⏎
(f #|x|# a b)⇒RR⇒(f #|x|# a b)⏎
(#|x|# f a b)⇒RL⇒(#|x|#⏎ f a⏎   b)⏎
(#|x|# f a b)⇒RR⇒(#|x|# f a b)⏎
(f⏎⏎⏎a)⇒L⇒(f⏎⏎ a)⏎
(f⏎⏎⏎a)⇒RL⇒(f⏎⏎ a)⏎
(f⏎⏎⏎a)⇒RR⇒unfit
(f a⏎⏎b)⇒L⇒(f⏎ a⏎⏎ b)⏎
(f a⏎⏎b)⇒RL⇒(f a⏎⏎   b)⏎
(f a⏎⏎b)⇒RR⇒unfit
(f a⏎⏎; c⏎⏎b)⇒RL⇒(f a⏎⏎   ; c⏎⏎   b)⏎
((a ; c⏎) b d)⇒L⇒((a ; c⏎  )⏎ b⏎ d)⏎
(f (g a ; c⏎) b)⇒LL⇒(f⏎ (g⏎  a ; c⏎  )⏎ b)⏎
(f (g a ; c⏎) b)⇒RLRL⇒(f (g a ; c⏎      )⏎   b)⏎
(f (g a ; c⏎) b)⇒LRR⇒unfit
(f (g a ; c⏎) b)⇒RRL⇒unfit
(a b) ; c⏎(d e)⇒RLRR⇒(a b) ; c⏎(d e)⏎"##;
