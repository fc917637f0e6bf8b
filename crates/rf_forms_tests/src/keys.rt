/// Keywords and dots, alone and before a datum.
pub const ROWS: &str = r##"(f #:k v)⇒L⇒(f⏎ #:k v)⏎
(f #:k v)⇒RL⇒(f #:k v)⏎
(f #:k v)⇒RR⇒(f #:k v)⏎
(f #:k v w)⇒RL⇒(f #:k v⏎   w)⏎
(f #:k v w)⇒RR⇒(f #:k v w)⏎
(f #:a #:b c)⇒RL⇒(f #:a⏎   #:b c)⏎
(f #:a #:b c)⇒RR⇒(f #:a #:b c)⏎
(f a #:k (g b c))⇒RLL⇒(f a⏎   #:k (g⏎        b⏎        c))⏎
(f a #:k (g b c))⇒RLRL⇒(f a⏎   #:k (g b⏎          c))⏎
(f a #:k (g b c))⇒RRRL⇒(f a #:k (g b c))⏎
(#:k v)⇒-⇒(#:k v)⏎
(#:k v w x)⇒L⇒(#:k v⏎ w⏎ x)⏎
(#:k v w x)⇒R⇒(#:k v w x)⏎
(f #:k⏎⏎v)⇒L⇒(f⏎ #:k⏎⏎ v)⏎
(f #:k⏎⏎v)⇒RL⇒(f #:k⏎⏎   v)⏎
(f #:k⏎⏎v)⇒RR⇒unfit
(f #:k ; c⏎ v)⇒RL⇒(f #:k ; c⏎   v)⏎
(f a #|x|# #:k v)⇒RL⇒(f a⏎   #|x|#⏎   #:k v)⏎
(a . b)⇒L⇒(a⏎ . b)⏎
(a . b)⇒RL⇒(a . b)⏎
(a . b)⇒RR⇒(a . b)⏎
(a b . c)⇒RL⇒(a b⏎   . c)⏎
(a b . c)⇒RR⇒(a b . c)⏎
(a . b . c)⇒RL⇒(a . b⏎   . c)⏎
(a . b . c)⇒RR⇒(a . b . c)⏎
(a . (b c))⇒RLL⇒(a . (b⏎      c))⏎
(a . #:k)⇒RL⇒(a .⏎   #:k)⏎
(a . #:k)⇒RR⇒(a . #:k)⏎
(a . #;b c)⇒RL⇒(a .⏎   #;b⏎   c)⏎
(a . #;b c)⇒RR⇒(a . #;b c)⏎
(a . "b")⇒RR⇒(a . "b")⏎"##;
